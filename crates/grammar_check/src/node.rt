ghost use Rattle.std.specs.Prelude.{◌≡◌, ℕ, ◌-◌, ◌^◌, min, MatchOption};
ghost use Rattle.adp_model.specs.LimitFaults.{told};
ghost use Rattle.adp_model.specs.WideTerms.{form_of};
ghost use Rattle.grammar_check.specs.Plans.{part_at};
ghost use Rattle.grammar_check.specs.TermSpreads.{IsLeaf, IsNode, names, put, term_room};

use crate::cut::{cut_product, cut_sum};
use crate::part::{Part, Worth};
use adp_model::Wide;

/// What the magnitudes of two sides of a wide term come to.
#[derive(Clone, Copy)]
pub enum Operation {
    Sum,
    /// Of numbers at least 1.
    Product,
    Greater,
}

impl Operation {
    /// What two cut numbers come to, cut.
    #[inline(always)]
    pub fn put(self, left: u64, right: u64) -> u64
        ensures { (one other : ℕ) → left ≡ told one → right ≡ told other → result ≡ told (put self one other) }
    {
        match self {
            Operation::Sum => cut_sum(left, right),
            Operation::Product => cut_product(left.max(1), right.max(1)),
            Operation::Greater => left.max(right),
        }
    }
}

/// A wide term with two sides.
#[derive(Clone, Copy)]
pub struct Node<'a> {
    pub operation: Operation,
    pub left: &'a Wide,
    pub right: &'a Wide,
}

/// The two sides of a wide term, where it has any.
pub fn node_of(term: &Wide) -> Option<Node<'_>>
    ensures { MatchOption result (IsLeaf (form_of term.now))
        (λ node. IsNode node.operation (form_of node.left.now) (form_of node.right.now) (form_of term.now)) }
{
    let (operation, left, right) = match term {
        Wide::Number(_) | Wide::Value(_) => return None,
        Wide::Sum(left, right) | Wide::Difference(left, right) => (Operation::Sum, left, right),
        Wide::Product(left, right) => (Operation::Product, left, right),
        Wide::Greater(left, right) | Wide::Lesser(left, right) => (Operation::Greater, left, right),
    };
    Some(Node {
        operation,
        left,
        right,
    })
}

/// The part at this place; one without letters that adds nothing where there is none.
pub fn part_at(parts: &[Part], place: usize) -> Part
    ensures { result ≡ part_at parts.now place }
{
    match parts.get(place) {
        None => Part {
            worth: Worth::OfLetters {
                weight: 0,
                factor: 0,
            },
            low: 0,
            room: 0,
        },
        Some(part) => *part,
    }
}

/// How many spare letters the arguments can take that the term names, or the greatest number that there is.
pub fn term_room(term: &Wide, parts: &[Part]) -> usize
    ensures { result ≡ min (term_room parts.now (form_of term.now)) (2 ^ 64 - 1) }
{
    match term {
        Wide::Number(_) => 0,
        Wide::Value(place) => part_at(parts, *place as usize).room,
        Wide::Sum(left, right)
        | Wide::Difference(left, right)
        | Wide::Product(left, right)
        | Wide::Greater(left, right)
        | Wide::Lesser(left, right) => {
            term_room(left, parts).saturating_add(term_room(right, parts))
        }
    }
}

/// Whether the term names the argument at this place.
pub fn names(term: &Wide, place: usize) -> bool
    ensures { result ≡ names (form_of term.now) place }
{
    match term {
        Wide::Number(_) => false,
        Wide::Value(at) => *at as usize == place,
        Wide::Sum(left, right)
        | Wide::Difference(left, right)
        | Wide::Product(left, right)
        | Wide::Greater(left, right)
        | Wide::Lesser(left, right) => names(left, place) || names(right, place),
    }
}
