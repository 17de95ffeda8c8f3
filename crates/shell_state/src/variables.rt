ghost use Rattle.std.specs.Prelude.{◌≡◌, ◌<◌, IfOk};
ghost use Rattle.var_store.specs.Calls.{Changes, put_of};
ghost use Rattle.shell_state.specs.Names.{named};

use ksh_base::{Items, Memory, Name, Text};
use std::alloc::Global;
use std::marker::Brand;
use std::sync::ledger::{Blank, Ledger};
use tree_steps::Steps;
use var_store::{VarFault, VarStore};
use var_types::Path;

/// The variables of a shell. A discipline's function is its text, as long as scripts have no functions.
pub type Vars = VarStore<Text>;

/// The path of a name's row, which stands in scope 0.
pub fn named(alloc: Global, name: &Name) -> Result<Path, Memory>
    ensures { IfOk result (λ p. p ≡ named name.now) }
{
    let name = name.copy(alloc)?;
    Ok(Path {
        scope: 0,
        name,
        steps: Items::new(alloc),
    })
}

/// Puts a text into a row, which its attributes shape; the faults are those of the store.
pub fn put_text(vars: &mut Vars, path: &Path, text: &[u8]) -> Result<(), VarFault>
    ensures { Changes result vars.old vars.new (put_of vars.old path.now text.now) }
{
    put_counted::<Brand>(vars, path, text, Blank::new(1))
}

fn put_counted<L: Ledger>(
    vars: &mut Vars,
    path: &Path,
    text: &[u8],
    blank: Blank,
) -> Result<(), VarFault>
    requires name { blank.name ≡ L.name }
    requires parts { blank.parts ≡ L.parts }
    requires some { 0 < L.parts }
    ensures { Changes result vars.old vars.new (put_of vars.old path.now text.now) }
{
    let mut steps = Steps::<L>::open(blank);
    vars.put(path, text, &mut steps)
}
