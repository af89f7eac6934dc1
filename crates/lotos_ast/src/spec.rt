// Specifications and processes.

ghost use Rattle.std.specs.Prelude.{◌≡◌};
ghost use Rattle.lotos_ast.specs.Reads.{unkept, leaf, both, left, right, node};
ghost use Rattle.lotos_ast.specs.ListTrees.{tree_place, behind};
ghost use Rattle.lotos_ast.specs.DeclarationTrees.{functionality_tree, optional_gates_tree};
ghost use Rattle.lotos_ast.specs.TypeTrees.{type_def_tree};
ghost use Rattle.lotos_ast.specs.BehaviourTrees.{behaviour_tree};
ghost use Rattle.lotos_ast.specs.SpecTrees.{where_item_tree, process_tree, items_tree, parameters_tree};

use crate::behaviour::Behaviour;
use crate::declaration::{Declarations, Functionality, GateList};
use crate::place::Place;
use crate::token::Token;
use crate::types::TypeDef;

/// A specification.
#[derive(Drop)]
pub struct Spec {
    /// The place of its first token.
    pub place: Place,
    /// Its name.
    pub name: Token,
    /// Its gates.
    pub gates: Option<GateList>,
    /// What its behaviour gives when it ends.
    pub functionality: Functionality,
    /// Its global types.
    pub types: Vec<TypeDef>,
    /// Its behaviour.
    pub behaviour: Behaviour,
    /// The types and processes of its `where`.
    pub items: Option<Vec<WhereItem>>,
}

/// A type or a process of a `where`. Its place is that of what it holds.
#[derive(Drop)]
#[cycle(process)]
pub enum WhereItem {
    /// Types of the library, or a type.
    Types(TypeDef),
    /// A process.
    Definition(Process),
}

/// A process.
#[derive(Drop)]
#[cycle(process)]
pub struct Process {
    /// The place of its first token.
    pub place: Place,
    /// Its name.
    pub name: Token,
    /// Its formal gates.
    pub gates: Option<GateList>,
    /// Its formal values.
    pub parameters: Option<Declarations>,
    /// What its behaviour gives when it ends.
    pub functionality: Functionality,
    /// Its behaviour.
    pub behaviour: Behaviour,
    /// The types and processes of its `where`.
    pub items: Option<Vec<WhereItem>>,
}

impl WhereItem {
    /// Types of the library, or a type. It takes no memory.
    pub fn types(types: TypeDef) -> WhereItem
        ensures tree { where_item_tree result ≡ node (tree_place (type_def_tree types)) (left (type_def_tree types)) }
    {
        WhereItem::Types(types)
    }

    /// A process. It takes no memory.
    pub fn definition(process: Process) -> WhereItem
        ensures tree { where_item_tree result ≡ node (tree_place (process_tree process)) (right (process_tree process)) }
    {
        WhereItem::Definition(process)
    }
}

impl Process {
    /// The process with these parts. It takes no memory.
    pub fn new(
        place: Place,
        name: Token,
        gates: Option<GateList>,
        parameters: Option<Declarations>,
        functionality: Functionality,
        behaviour: Behaviour,
        items: Option<Vec<WhereItem>>,
    ) -> Process
        ensures tree { process_tree result
            ≡ node place (behind (both (leaf name) (both (optional_gates_tree gates) (both (parameters_tree parameters)
            (behind (both (functionality_tree functionality)
            (behind (both (behaviour_tree behaviour) (both (items_tree items) unkept))))))))) }
    {
        Process {
            place,
            name,
            gates,
            parameters,
            functionality,
            behaviour,
            items,
        }
    }
}
