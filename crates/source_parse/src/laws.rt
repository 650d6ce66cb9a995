//! Laws of derivations, each the contract of a function that does nothing.

ghost use Rattle.source_parse.specs.Laws.{TextsAreUnique, ProgramsHaveNoFault, FaultsAgree, ProgramsAreSmall, ProgramsAreValid, NamesAreDistinct, NamesAreNames, NamesOfUnitsAreNames, UnitsAreUnique, UnitsHaveNoFault};

use source_lex::{tokens_are_in_order, tokens_are_unique, tokens_spell_their_kinds};
use source_syntax::{
    first_faults_agree, programs_have_no_fault as syntax_has_no_fault, trees_are_unique,
};

/// A text is at most one program.
pub fn a_text_is_one_program()
    ensures { TextsAreUnique }
{
    trees_are_unique();
}

/// Of a text that is a program nothing but want of memory may be answered in its place.
pub fn a_program_has_no_fault()
    ensures { ProgramsHaveNoFault }
{
    trees_are_unique();
    syntax_has_no_fault();
}

/// Two faults of one text have the same number and the same offset.
pub fn a_text_has_one_fault()
    ensures { FaultsAgree }
{
    trees_are_unique();
    tokens_are_unique();
    syntax_has_no_fault();
    first_faults_agree();
}

/// A program has at most as many statements as its text has bytes.
pub fn a_program_is_no_larger_than_its_text()
    ensures { ProgramsAreSmall }
{
    tokens_are_in_order();
}

/// A text that is a program is a valid one: at most 15 names, each operand of the sort that its place needs, and each `break` and
/// `continue` inside the body of a loop.
pub fn a_text_is_a_valid_program()
    ensures { ProgramsAreValid }
{}

/// The names of a program are spelled as names: a letter or `_`, and then letters, digits and `_`.
pub fn names_are_spelled_as_names()
    ensures { NamesAreNames }
{
    tokens_spell_their_kinds();
}

/// No two names of a program are equal.
pub fn names_are_distinct()
    ensures { NamesAreDistinct }
{}

/// A text is at most one program of functions.
pub fn a_text_is_one_unit()
    ensures { UnitsAreUnique }
{
    trees_are_unique();
    tokens_are_unique();
}

/// Of a text that is a program of functions nothing but want of memory may be answered in its place.
pub fn a_unit_has_no_fault()
    ensures { UnitsHaveNoFault }
{
    trees_are_unique();
    syntax_has_no_fault();
}

/// The names of a program of functions are spelled as names.
pub fn names_of_units_are_spelled_as_names()
    ensures { NamesOfUnitsAreNames }
{
    tokens_spell_their_kinds();
}
