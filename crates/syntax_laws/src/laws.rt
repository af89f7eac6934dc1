// Laws of the definitions: a call does nothing, and its contract is the law.

ghost use Rattle.syntax_laws.specs.Laws.{TreesDetermineTypes, TreesDetermineTypeLists};

use lotos_ast::types::TypeDef;

/// What is read of tokens as a type has one tree, and types of one tree are alike: they have the same parts, wherever these lie in memory.
#[tactic(auto, using(crate::proofs::Types::trees_determine_types, crate::proofs::Types::trees_determine_type_lists))]
pub fn trees_determine_types()
    ensures types { TreesDetermineTypes }
    ensures lists { TreesDetermineTypeLists }
{}
