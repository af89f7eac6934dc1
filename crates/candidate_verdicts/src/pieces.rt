// What is known of trees of rules at nodes.

ghost use Rattle.std.specs.Prelude.{ℕ, ◌≡◌, ◌++◌, ◌∷◌, ◌&&◌, [], nat_eq, IfOk, IfErr, None, OnErr, OnOk, if◌then◌else◌, option_map};
ghost use Rattle.rule_model.specs.Derivations.{Derivation, derivation_of};
ghost use Rattle.symbolic_actions.specs.Models.{show_of};
ghost use Rattle.candidate_verdicts.specs.Stored as of;
ghost use Rattle.candidate_verdicts.specs.Stored.{stored, with_piece, without, is_about, pieces_of, group_of, group_at};

use crate::key::key_of;
use crate::same::same_rules;
use indexmap::IndexMap;
use node_trees::origin::Gen;
use rule_model::rules::Rules;
use spec_core::memory::Memory;
use std::alloc::Global;
use std::default::MadeWith;
use symbolic_actions::shown::Shown;

/// What the node of a generation shows by a tree of rules, or that it shows nothing by it.
#[derive(Drop)]
pub struct Piece {
    pub generation: Gen,
    pub rules: Rules,
    pub shown: Option<Shown>,
}

/// A part of a tree of rules, with the generation of the node where it stands.
#[derive(Clone, Copy)]
pub struct NodeRules<'a> {
    pub generation: Gen,
    pub rules: &'a Rules,
}

/// What is known of one node.
#[derive(Drop)]
pub struct NodePieces {
    // by the keys of their trees
    groups: IndexMap<u64, Vec<Piece>>,
}

/// What is known of nodes. Of the pieces about one generation and one tree of rules the first counts.
#[derive(Drop)]
pub struct Pieces {
    // by the numbers of their generations
    nodes: IndexMap<u128, NodePieces>,
}

// Whether a piece is about this generation and this tree of rules.
fn is_about(piece: &Piece, generation: Gen, rules: &Rules) -> bool
    ensures { result ≡ is_about generation.0 (derivation_of rules.now) piece.now }
{
    piece.generation.0 == generation.0 && same_rules(&piece.rules, rules)
}

// What the first of these pieces says that is about the generation and the tree of rules.
fn first_about<'a>(pieces: &'a [Piece], generation: Gen, rules: &Rules) -> Option<Option<&'a Shown>>
    ensures { option_map (option_map (λ s. show_of s.now)) result ≡ pieces_of pieces.now generation.0 (derivation_of rules.now) }
{
    for piece in pieces {
        if is_about(piece, generation, rules) {
            return Some(piece.shown.as_ref());
        }
    }
    None
}

// A node of which nothing is known.
impl MadeWith<Global> for NodePieces {
    ghost is_made_with = { λ node. (key : ℕ) → group_of node key ≡ [] };

    fn made_with(alloc: Global) -> NodePieces {
        NodePieces {
            groups: IndexMap::new(alloc),
        }
    }
}

impl NodePieces {
    // The pieces that stand under a key.
    fn group(&self, key: u64) -> &[Piece]
        ensures { result.now ≡ group_of self.now key }
    {
        match self.groups.get(&key) {
            None => &[],
            Some(found) => found,
        }
    }

    // Puts a piece under a key, behind the others.
    fn push(&mut self, key: u64, piece: Piece) -> Result<(), Memory>
        ensures more { OnOk result ((other : ℕ) → group_of self.new other ≡
            group_of self.old other ++ (if nat_eq other key then piece ∷ [] else [])) }
        ensures kept { OnErr result ((other : ℕ) → group_of self.new other ≡ group_of self.old other) }
    {
        self.groups.entry(key)?.or_default().push(piece)?;
        Ok(())
    }
}

/// Whether a generation is one of these. It takes no memory.
pub fn is_gone(gone: &[Gen], generation: Gen) -> bool
    ensures { result ≡ of.is_gone gone.now generation.0 }
{
    for one in gone {
        if one.0 == generation.0 {
            return true;
        }
    }
    false
}

impl Pieces {
    /// Nothing is known. It takes no memory.
    pub fn new(alloc: Global) -> Pieces
        ensures empty { (g : ℕ) (d : Derivation) → stored result g d ≡ None }
    {
        Pieces {
            nodes: IndexMap::new(alloc),
        }
    }

    // The pieces about a generation that stand under a key.
    fn group(&self, generation: Gen, key: u64) -> &[Piece]
        ensures { result.now ≡ group_at self.now generation.0 key }
    {
        match self.nodes.get(&generation.0) {
            None => &[],
            Some(node) => node.group(key),
        }
    }

    /// What is known of this tree of rules at the node of this generation: None, nothing; Some(None), that nothing is shown. It takes no
    /// memory.
    pub fn find(&self, generation: Gen, rules: &Rules) -> Option<Option<&Shown>>
        ensures found { option_map (option_map (λ s. show_of s.now)) result ≡
            stored self.now generation.0 (derivation_of rules.now) }
    {
        first_about(self.group(generation, key_of(rules)), generation, rules)
    }

    // Puts a piece under the key of its tree, behind the others.
    fn push(&mut self, generation: Gen, key: u64, piece: Piece) -> Result<(), Memory>
        ensures more { OnOk result ((g k : ℕ) → group_at self.new g k ≡
            group_at self.old g k ++ (if nat_eq g generation.0 && nat_eq k key then piece ∷ [] else [])) }
        ensures kept { OnErr result ((g k : ℕ) → group_at self.new g k ≡ group_at self.old g k) }
    {
        self.nodes
            .entry(generation.0)?
            .or_default()
            .push(key, piece)
    }

    #[tactic(auto, using(crate::proofs::Storing::piece_put, crate::proofs::Storing::piece_known))]
    /// Puts a piece in, unless something is known of its tree of rules at its generation. Where there is no memory, all stays as it was.
    pub fn put(&mut self, piece: Piece) -> Result<(), Memory>
        ensures put { IfOk result (λ _. (g : ℕ) (d : Derivation) → stored self.new g d ≡ with_piece (stored self.old) piece g d) }
        ensures kept { IfErr result (λ _. (g : ℕ) (d : Derivation) → stored self.new g d ≡ stored self.old g d) }
    {
        if self.find(piece.generation, &piece.rules).is_some() {
            return Ok(());
        }
        self.push(piece.generation, key_of(&piece.rules), piece)
    }

    // Forgets what is known of a generation.
    fn drop_one(&mut self, generation: Gen)
        ensures gone { (g k : ℕ) → group_at self.new g k ≡ (if nat_eq generation.0 g then [] else group_at self.old g k) }
    {
        self.nodes.swap_remove(&generation.0);
    }

    #[tactic(auto, using(crate::proofs::Storing::pieces_kept, crate::proofs::Storing::one_less))]
    /// Forgets all that is known of these generations, and nothing else. It takes no memory.
    pub fn drop_gone(&mut self, gone: &[Gen])
        ensures gone { (g : ℕ) (d : Derivation) → stored self.new g d ≡ without gone.now (stored self.old) g d }
    {
        for one in gone {
            self.drop_one(*one);
        }
    }
}
