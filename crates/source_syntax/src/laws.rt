//! Laws of the definitions: each function is empty, and its contract is the law.

ghost use Rattle.source_syntax.specs.Laws.{TreesAreUnique, ProgramsHaveNoFault, FirstFaultsAgree};

/// A text has at most one concrete tree.
pub fn trees_are_unique()
    ensures { TreesAreUnique }
{}

/// Of a text that is a program by its syntax nothing but want of memory may be answered in place of its tree.
pub fn programs_have_no_fault()
    ensures { ProgramsHaveNoFault }
{}

/// Two faults that may be answered of one text are the same, but for want of memory.
pub fn first_faults_agree()
    ensures { FirstFaultsAgree }
{}
