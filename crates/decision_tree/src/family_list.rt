//! Lists of families.
ghost use Rattle.std.specs.Prelude.{◌≡◌};

use crate::family::Family;
use crate::rank::Rank;
use std::marker::Model;

/// A list of families; contracts see it as the list.
#[derive(Drop)]
pub struct FamilyList<R: Rank> {
    families: Vec<Family<R>>,
}

impl<R: Rank> Model for FamilyList<R> {
    ghost use Rattle.std.specs.Coded.{coded_list};
    ghost use Rattle.std.specs.Prelude.{List};
    ghost use Rattle.decision_tree.specs.Laws.FamilyCode.{family_code};
    ghost use Rattle.decision_tree.specs.declared.family.Family.{Family};

    ghost Value = { List (Family R) };

    ghost coded = { coded_list (family_code R.code) };

    ghost view = { λ inside. inside.families.items };
}

impl<R: Rank> FamilyList<R> {
    /// The list of the vector's families. It takes no memory.
    pub fn of(families: Vec<Family<R>>) -> FamilyList<R>
        ensures { result ≡ families.items }
    {
        FamilyList { families }
    }

    /// The families as a slice.
    pub fn items(&self) -> &[Family<R>]
        ensures { result.now ≡ self.now }
    {
        &self.families
    }

    /// The vector of the families. It takes no memory.
    pub fn into_vec(self) -> Vec<Family<R>>
        ensures { result.items ≡ self }
    {
        self.families
    }
}
