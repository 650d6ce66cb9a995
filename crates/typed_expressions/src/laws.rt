//! Laws of the definitions, each the contract of a function that does nothing.

ghost use Rattle.typed_expressions.specs.Expressions.{Typed};
ghost use Rattle.typed_expressions.specs.Grouping.{Grouped, Joint, attach, IsLadder, first_operand, further_operands};
ghost use Rattle.std.specs.Prelude.{◌≡◌, ◌++◌, ◌∷◌, []};

/// Operators group by the ladder of C99: with a further operator and operand or a division behind it, a group by the ladder is one still,
/// and lists what it listed, and that further one behind it.
pub fn operators_group_by_the_ladder()
    ensures ladder { (group : Grouped Typed) (joint : Joint Typed) → IsLadder group → IsLadder (attach group joint) }
    ensures first { (group : Grouped Typed) (joint : Joint Typed) → first_operand (attach group joint) ≡ first_operand group }
    ensures further { (group : Grouped Typed) (joint : Joint Typed) → further_operands (attach group joint) ≡ further_operands group ++ joint ∷ [] }
{}

/// Operands with the operators between them and the divisions behind them are one group by the ladder and no other.
pub fn one_group_is_by_the_ladder()
    ensures { (group other : Grouped Typed) → IsLadder group → IsLadder other → first_operand group ≡ first_operand other → further_operands group ≡ further_operands other → group ≡ other }
{}
