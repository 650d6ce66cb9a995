//! Laws of the definitions, each the contract of a function that does nothing: what labels, edges and steps have to do with each other.

ghost use Rattle.std.specs.Prelude.{◌≡◌, ◌⊎◌, ℕ, ℤ, ◌<◌, ◌+◌, Bool, List, [], length, slice_set};
ghost use Rattle.step_meaning.specs.Syntax.{Expression, Statements, free, size_of};
ghost use Rattle.step_meaning.specs.Outcome.{Store, May};
ghost use Rattle.step_meaning.specs.Run.{IsInput};
ghost use Rattle.step_meaning.specs.Step.{Configuration, Next, front, items_of};
ghost use Rattle.step_meaning.specs.Valid.{IsBody};
ghost use Rattle.control_flow.specs.Actions.{IsSorted, LeadsBelow, LeadsOn};
ghost use Rattle.control_flow.specs.Edges.{EdgesAreSteps, Reached, SomeEdge, BothTaken, LandsAt, configuration, edges_from};
ghost use Rattle.control_flow.specs.Labels.{action_at, all_labels, assigns, entry_of, rest, tests};
ghost use Rattle.control_flow.specs.Measures.{AreSizes};
ghost use Rattle.control_flow.specs.States.{IsReachedState};
ghost use Rattle.control_flow.specs.Told.{Told};
ghost use Rattle.control_flow.specs.Transitions.{AreOnward, AreTold};
ghost use Rattle.control_flow.specs.declared.transition.Transition.{Transition};

/// The steps of the configurations of a label, its statements with a store, are those of its edges and no others. Each leads to a list
/// with the same front as that of the edge's target. A run begins with the front of the entry.
pub fn edges_are_the_steps()
    ensures steps { (body : Statements) (l : ℕ) → l < length (all_labels body) → EdgesAreSteps body l }
    ensures entry { (body : Statements) → front (rest body (entry_of body)) ≡ front (items_of body) }
{}

/// Where a final configuration has itself as its successor, each successor is reached over an edge but that one of label 0, and only the
/// configurations of label 0 are final.
pub fn successors_are_reached_over_edges()
    ensures each { (body : Statements) (l : ℕ) → l < length (all_labels body) → (s : Store) (d : Configuration) → Next (configuration body l s) d
        → SomeEdge (Reached body l s d) (edges_from l (action_at body l)) ⊎ ((l ≡ 0) × (d ≡ configuration body l s)) }
    ensures ended { (body : Statements) (l : ℕ) → l < length (all_labels body) → front (rest body l) ≡ [] → l ≡ 0 }
    ensures last { (body : Statements) → front (rest body 0) ≡ [] }
{}

/// Both outcomes of a whole test `?` may be taken, each over its edge, and so may each number of a right side.
pub fn choices_may_be_taken()
    ensures branches { (body : Statements) (l : ℕ) → l < length (all_labels body) → (head : Bool) (yes no : ℕ) → action_at body l ≡ tests head free yes no
        → (s : Store) → BothTaken body l yes no s }
    ensures values { (body : Statements) (l : ℕ) → l < length (all_labels body) → (x : ℕ) (e : Expression) (next : ℕ) → action_at body l ≡ assigns x e next
        → (s : Store) (v : ℤ) → May e s v → LandsAt body l s (slice_set s x v) next }
{}

/// Each label that follows a label, and the entry, is a label of the program; there is one label for each statement besides label 0.
pub fn edges_lead_to_labels()
    ensures edges { (body : Statements) (l : ℕ) → l < length (all_labels body) → LeadsBelow (length (all_labels body)) (action_at body l) }
    ensures entry { (body : Statements) → entry_of body < length (all_labels body) }
    ensures count { (body : Statements) → length (all_labels body) ≡ 1 + size_of body }
{}

/// Each edge leads to a greater label, to a loop's test or to the end, but for those of loops' tests.
pub fn edges_lead_onward()
    ensures { (body : Statements) (l : ℕ) → l < length (all_labels body) → LeadsOn body l (action_at body l) }
{}

/// What is done at a label of a valid program is over its variables.
pub fn actions_are_over_the_variables()
    ensures { (vars : ℕ) (body : Statements) → IsBody vars body → (l : ℕ) → l < length (all_labels body) → IsSorted vars (action_at body l) }
{}

/// There are sizes that keep to the rules, and they are the only ones.
pub fn there_are_sizes()
    ensures some { (body : Statements) → (sizes : ℕ → ℕ → ℕ) × AreSizes body sizes }
    ensures only { (body : Statements) (sizes others : ℕ → ℕ → ℕ) → AreSizes body sizes → AreSizes body others
        → (level label : ℕ) → label < length (all_labels body) → sizes level label ≡ others level label }
{}

/// A label that is reached is one of the program's, and the store has sixteen places. Where the program is valid those past its variables
/// are 0.
pub fn reached_states_are_of_the_program()
    ensures labels { (vars : ℕ) (body : Statements) (label : ℕ) (store : Store) → IsReachedState vars body label store → label < length (all_labels body) }
    ensures places { (vars : ℕ) (body : Statements) (label : ℕ) (store : Store) → IsReachedState vars body label store → length store ≡ 16 }
    ensures inputs { (vars : ℕ) (body : Statements) → IsBody vars body → (label : ℕ) (store : Store) → IsReachedState vars body label store → IsInput vars store }
{}

/// The transitions of a program lead to labels, and but for those at labels with given trees they lead on.
pub fn transitions_lead_on()
    ensures { (body : Statements) (told : Told) (transitions : List Transition) → length transitions ≡ length (all_labels body)
        → AreTold body told transitions → AreOnward transitions }
{}
