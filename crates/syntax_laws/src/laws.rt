//! Laws of the definitions: each function is empty, and its contract is the law.

ghost use Rattle.syntax_laws.specs.Numbering.{TreesCanBeNumbered};

/// Numbers decide nothing: each tree can be given those of its tokens, and spells the same tokens then.
pub fn trees_can_be_numbered()
    ensures { TreesCanBeNumbered }
{}
