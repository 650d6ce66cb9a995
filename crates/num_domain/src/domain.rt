//! The trait of numerical domains.
ghost use Rattle.std.specs.Prelude.{◌≡◌, ℕ, ◌<◌, ℤ, Bool, List, IsTrue, IfOk, OnErr};
ghost use Rattle.linear_cons.specs.declared.bounds.Bounds.{Bounds};
ghost use Rattle.linear_cons.specs.declared.row.Row.{Row};
ghost use Rattle.linear_cons.specs.Bounds.{LiesIn};
ghost use Rattle.linear_cons.specs.Rows.{MeetsAll};
ghost use Rattle.num_domain.specs.Domain.{AllMeet, HasEvery, IsPlain, IsUnchanged, KeepsAssigned, KeepsMeeting, KeepsMeetingAll, NoneMeets};
ghost use Rattle.num_domain.specs.Domain.{SameMembers, Within};

use linear_cons::{Bounds, Linear, Row};
use std::alloc::{AllocError, Global};

/// A set of stores of sixteen whole numbers, kept as far as the domain can write it down: each
/// operation keeps at least the members that its contract names.
///
/// After want of memory a value that was borrowed for writing has its old members and answers.
pub trait NumDomain: Drop + Sized {
    // The store is a member.
    ghost has: { Self → List ℤ → Type 0 };

    // What `is_empty` answers.
    ghost seen_empty: { Self → Bool };

    // What `rows` answers.
    ghost told_rows: { Self → List Row };

    // What `bounds` answers.
    ghost told_bounds: { Self → Bounds };

    /// Every store.
    fn top(alloc: Global) -> Result<Self, AllocError>
        ensures { IfOk result (λ all. HasEvery (has all)) };

    /// Keeps the members that meet the row. Where the row has one variable and a constant of at
    /// most 2^64 in size, each member meets it afterwards.
    fn meet_row(&mut self, alloc: Global, row: &Row) -> Result<(), AllocError>
        ensures keeps { IfOk result (λ _. KeepsMeeting row.now (has self.old) (has self.new)) }
        ensures plain { IfOk result (λ _. (place : ℕ) → IsPlain row.now place → AllMeet row.now (has self.new)) }
        ensures err { OnErr result (IsUnchanged has seen_empty told_rows told_bounds self.old self.new) };

    /// Keeps the members that meet all rows.
    fn meet_rows(&mut self, alloc: Global, rows: &[Row]) -> Result<(), AllocError>
        ensures keeps { IfOk result (λ _. KeepsMeetingAll rows.now (has self.old) (has self.new)) }
        ensures err { OnErr result (IsUnchanged has seen_empty told_rows told_bounds self.old self.new) };

    /// Keeps the members of both.
    fn join(&mut self, alloc: Global, other: &Self) -> Result<(), AllocError>
        ensures own { IfOk result (λ _. Within (has self.old) (has self.new)) }
        ensures others { IfOk result (λ _. Within (has other.now) (has self.new)) }
        ensures err { OnErr result (IsUnchanged has seen_empty told_rows told_bounds self.old self.new) };

    /// Keeps the members of both, and gives up what changes, so that a growing chain is to end: no
    /// clause says that it does.
    fn widen(&mut self, alloc: Global, newer: &Self) -> Result<(), AllocError>
        ensures own { IfOk result (λ _. Within (has self.old) (has self.new)) }
        ensures newer { IfOk result (λ _. Within (has newer.now) (has self.new)) }
        ensures err { OnErr result (IsUnchanged has seen_empty told_rows told_bounds self.old self.new) };

    /// Replaces the number at the place, which is below 16, by those of the expression at the old store.
    fn assign(&mut self, alloc: Global, place: u8, value: &Linear) -> Result<(), AllocError>
        requires { place < 16 }
        ensures keeps { IfOk result (λ _. KeepsAssigned place value.now (has self.old) (has self.new)) }
        ensures err { OnErr result (IsUnchanged has seen_empty told_rows told_bounds self.old self.new) };

    /// True only where there is no member.
    fn is_empty(&self) -> bool
        ensures { result ≡ seen_empty self.now };

    /// True only where each member meets the row. It takes no memory, and may miss what the rows say
    /// together.
    fn implies(&self, row: &Row) -> bool
        ensures { IsTrue result → AllMeet row.now (has self.now) };

    /// True only where no member meets the row: where a copy that met it would be seen to be empty.
    fn rules_out(&self, alloc: Global, row: &Row) -> Result<bool, AllocError>
        ensures { IfOk result (λ out. IsTrue out → NoneMeets row.now (has self.now)) }
    {
        let mut twin = self.copy(alloc)?;
        twin.meet_row(alloc, row)?;
        Ok(twin.is_empty())
    }

    /// Rows that each member meets.
    fn rows(&self, alloc: Global) -> Result<Vec<Row>, AllocError>
        ensures { IfOk result (λ rows. rows.items ≡ told_rows self.now) };

    /// Ends that each member lies between.
    fn bounds(&self) -> Bounds
        ensures { result ≡ told_bounds self.now };

    /// A value with the same members.
    fn copy(&self, alloc: Global) -> Result<Self, AllocError>
        ensures { IfOk result (λ twin. SameMembers (has self.now) (has twin)) };

    // Nothing that is seen to be empty has a member.
    ghost empty_law: { (set : Self) (store : List ℤ) → IsTrue (seen_empty set) → has set store → ⊥ };

    // Each member meets all rows and lies between the ends.
    ghost rows_law: { (set : Self) (store : List ℤ) → has set store → MeetsAll store (told_rows set) };

    ghost bounds_law: { (set : Self) (store : List ℤ) → has set store → LiesIn (told_bounds set) store };
}
