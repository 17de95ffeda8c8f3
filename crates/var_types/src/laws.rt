ghost use Rattle.std.specs.Prelude.{◌≡◌};
ghost use Rattle.std.specs.declared.cmp.Ordering.TheVariants.{Equal};
ghost use Rattle.std.specs.Cmp.{IsTotalOrder};
ghost use Rattle.var_types.specs.declared.path.Path.{Path};
ghost use Rattle.var_types.specs.Order.{path_cmp};

/// The order of paths is total, and tells every two paths apart.
#[tactic(auto, using(crate::proofs::Sameness::total, crate::proofs::Sameness::same_path))]
pub fn path_laws()
    ensures total { IsTotalOrder path_cmp }
    ensures same { (p q : Path) → path_cmp p q ≡ Equal → p ≡ q }
{}
