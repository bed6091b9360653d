// What header lines say, as slices of the input.

ghost use Rattle.std.specs.Prelude.{◌≤◌, ◌^◌, length, IsSome};
ghost use Rattle.job_texts.specs.LetTerms.{term_of_text};

use adp_model::{Goal, Kind};

/// Letters of a class as they are spelled, from behind their first `"`, and the word of their weight.
#[derive(Clone, Copy)]
pub(crate) struct Item<'a> {
    pub(crate) letters: &'a [u8],
    pub(crate) negative: bool,
    pub(crate) number: &'a [u8],
}

#[derive(Clone, Copy)]
pub(crate) enum Argument<'a> {
    /// A rule by its name.
    Named(&'a [u8]),
    /// A literal as it is spelled, from behind its first `"`.
    Spelled(&'a [u8]),
    /// One letter of the class of this name.
    OneOf(&'a [u8]),
    /// Letters of the class of this name, by the words of the bounds.
    RunOf {
        class: &'a [u8],
        low: &'a [u8],
        high: &'a [u8],
    },
    /// The same without a high bound.
    RunFrom {
        class: &'a [u8],
        low: &'a [u8],
    },
}

/// The lengths that an alternative allows, by the words of the bounds.
#[derive(Clone, Copy)]
pub(crate) struct SizeWords<'a> {
    pub(crate) low: &'a [u8],
    pub(crate) high: Option<&'a [u8]>,
}

/// A sign by its name, its arguments, and a size where one is given. Few have one, so it stands apart.
#[derive(Drop)]
pub(crate) struct Alternative<'a> {
    pub(crate) sign: &'a [u8],
    pub(crate) arguments: Vec<Argument<'a>>,
    pub(crate) size: Option<Box<SizeWords<'a>>>,
}

/// A term as it is spelled in a text of this format.
#[derive(Clone, Copy)]
pub(crate) struct Term<'a> {
    pub(crate) version: u8,
    pub(crate) bytes: &'a [u8],
    ghost spelled: { IsSome (term_of_text version bytes.now) },
    ghost short: { length bytes.now ≤ 2 ^ 31 },
}

/// What a line that has form says.
#[derive(Drop)]
pub(crate) enum Declaration<'a> {
    Class {
        name: &'a [u8],
        items: Vec<Item<'a>>,
    },
    Sign {
        name: &'a [u8],
        kinds: Vec<Kind>,
    },
    Algebra {
        name: &'a [u8],
        goal: Goal,
    },
    Let {
        sign: &'a [u8],
        variables: Vec<&'a [u8]>,
        term: Term<'a>,
    },
    Rule {
        name: &'a [u8],
        alternatives: Vec<Alternative<'a>>,
    },
    Axiom {
        rule: &'a [u8],
    },
    Words,
}

/// What a header line is: skipped; with a byte that is not printable; with a `"` that begins no quoted text; with a
/// byte that begins no token, or tokens that match no shape; or one that has form.
#[derive(Drop)]
pub(crate) enum HeaderLine<'a> {
    Skipped,
    Unprintable,
    Unclosed,
    Shapeless,
    Says(Declaration<'a>),
}
