//! A script's commands by hand.
use crate::lower;
use ksh_ast::{Command, Item};
use ksh_base::{Items, Shared};
use ksh_script::Command as PlainCommand;
use std::test::Fail;

#[test]
fn a_group_in_a_subshell_is_not_built(rt: HostRuntime) -> Result<(), Fail> {
    let alloc = rt.alloc();
    let mut inner = Items::new(alloc);
    inner.push(Item {
        line: 2,
        command: Command::Group {
            body: Shared::new(alloc, Items::new(alloc))?,
            redirects: Items::new(alloc),
        },
    })?;
    let mut outer = Items::new(alloc);
    outer.push(Item {
        line: 1,
        command: Command::Subshell {
            body: Shared::new(alloc, inner)?,
            redirects: Items::new(alloc),
        },
    })?;
    let list = lower(alloc, &Shared::new(alloc, outer)?)?;
    match list.get().as_slice() {
        [item] => match &item.command {
            PlainCommand::Subshell { body } => match body.get().as_slice() {
                [item] => {
                    assert!(rt; item.line == 2 && matches!(&item.command, PlainCommand::NotBuilt));
                }
                _ => assert!(rt; false),
            },
            _ => assert!(rt; false),
        },
        _ => assert!(rt; false),
    }
    Ok(())
}
