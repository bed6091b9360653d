ghost use Rattle.std.specs.Prelude.{◌≡◌, ◌↔◌, IsTrue};
ghost use Rattle.adp_model.specs.Lengths.{low_of, high_of, AllowsLength};

use crate::sequence::Sequence;
use crate::text::Text;
use std::marker::Model;

/// A letter class: distinct letters, at least one, each with its weight.
#[derive(Drop)]
pub struct Class {
    pub name: Text,
    pub letters: Sequence<(u8, i64)>,
}

/// What an argument of a sign is worth: the score of a subtree, or the value of a token.
#[derive(Clone, Copy, Debug, PartialEq, Eq)]
pub enum Kind {
    Score,
    Token,
}

/// A function symbol: one to four arguments, each of its kind.
#[derive(Drop)]
pub struct Sign {
    pub name: Text,
    pub kinds: Sequence<Kind>,
}

/// The term `constant + factors[0] * x1 + .. + factors[k - 1] * xk`, one factor for each argument.
#[derive(Drop)]
pub struct Linear {
    pub constant: i64,
    pub factors: Sequence<i64>,
}

/// A term of sums, differences, products, and the greater or the lesser of two: numbers and values of arguments are its
/// leaves. Functions that take one call themselves as deep as it is: a term of a job is at most 31 deep.
#[derive(Drop)]
pub enum Wide {
    /// This number.
    Number(i64),
    /// The value of the argument at this place, from 0 on.
    Value(u32),
    Sum(Box<Wide>, Box<Wide>),
    /// The left side less the right one.
    Difference(Box<Wide>, Box<Wide>),
    Product(Box<Wide>, Box<Wide>),
    /// The greater of both sides.
    Greater(Box<Wide>, Box<Wide>),
    /// The lesser of both sides.
    Lesser(Box<Wide>, Box<Wide>),
}

/// A wide term of an algebra. Contracts see it as its form, without where in memory its sides lie.
#[derive(Drop)]
pub struct WideTerm {
    root: Wide,
}

impl Model for WideTerm {
    ghost use Rattle.adp_model.specs.WideForm.{WideForm, form_code};

    ghost Value = { WideForm };

    ghost coded = { form_code };

    ghost use Rattle.adp_model.specs.WideTerms.{form_of};

    ghost view = { λ term. form_of term.root };
}

impl WideTerm {
    ghost use Rattle.std.specs.Prelude.{◌≡◌};
    ghost use Rattle.adp_model.specs.WideTerms.{form_of};

    /// The term of this form. Takes no memory.
    pub fn new(root: Wide) -> WideTerm
        ensures { result ≡ form_of root }
    {
        WideTerm { root }
    }

    /// The term, node by node. Takes no memory.
    pub fn root(&self) -> &Wide
        ensures { form_of result.now ≡ self.now }
    {
        &self.root
    }
}

/// What a sign is worth, by the values of its arguments: a linear term in the first format, a wide one from the second
/// on.
#[derive(Drop)]
pub enum Term {
    Linear(Linear),
    Wide(WideTerm),
}

/// Which scores are better: the least, or the greatest.
#[derive(Clone, Copy, Debug, PartialEq, Eq)]
pub enum Goal {
    Least,
    Greatest,
}

/// A scoring algebra: a goal, and one term for each sign, in the order of the signs.
#[derive(Drop)]
pub struct Algebra {
    pub name: Text,
    pub goal: Goal,
    pub terms: Sequence<Term>,
}

/// An argument of an alternative: a rule by its number, or a token.
#[derive(Drop)]
pub enum Arg {
    /// The rule of this number.
    Rule(u32),
    /// These letters.
    Literal(Text),
    /// One letter of the class of this number.
    Letter(u32),
    /// From `low` to `high` letters of the class of this number, with no upper bound where `high` is `None`.
    Run {
        class: u32,
        low: u32,
        high: Option<u32>,
    },
}

/// The lengths that an alternative allows: from `low` on, up to `high` where there is one.
#[derive(Clone, Copy, Debug, PartialEq, Eq)]
pub struct Size {
    pub low: u32,
    pub high: Option<u32>,
}

/// An alternative of a rule: a sign by its number, an argument for each of the sign's kinds, and the lengths that it
/// allows, all where no size is given.
#[derive(Drop)]
pub struct Alt {
    pub sign: u32,
    pub args: Sequence<Arg>,
    pub size: Option<Size>,
}

impl Alt {
    /// The least number of letters that the alternative allows. Takes no memory.
    pub fn low(&self) -> u32
        ensures { result ≡ low_of self.now.size }
    {
        match self.size {
            None => 0,
            Some(size) => size.low,
        }
    }

    /// The greatest number of letters that the alternative allows, or `None` where there is no bound. Takes no memory.
    pub fn high(&self) -> Option<u32>
        ensures { result ≡ high_of self.now.size }
    {
        match self.size {
            None => None,
            Some(size) => size.high,
        }
    }

    /// Whether the alternative may be used over so many letters. Takes no memory.
    pub fn allows(&self, letters: usize) -> bool
        ensures { IsTrue result ↔ AllowsLength self.now letters }
    {
        let within_high = match self.high() {
            None => true,
            Some(high) => letters <= high as usize,
        };
        self.low() as usize <= letters && within_high
    }
}

/// A rule: at least one alternative, in order.
#[derive(Drop)]
pub struct Rule {
    pub name: Text,
    pub alts: Sequence<Alt>,
}

/// A signature, its algebras, and a tree grammar whose derivations begin at the rule `axiom`.
#[derive(Drop)]
pub struct Grammar {
    pub classes: Sequence<Class>,
    pub signs: Sequence<Sign>,
    pub algebras: Sequence<Algebra>,
    pub rules: Sequence<Rule>,
    pub axiom: u32,
}
