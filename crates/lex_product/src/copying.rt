//! Copies of grammars and of what the checks found of them.

ghost use Rattle.std.specs.Prelude.{◌≡◌, IfOk};
ghost use Rattle.adp_model.specs.WideTerms.{form_of};

use adp_model::{
    Algebra, Alt, Arg, Class, Grammar, Kind, Linear, Rule, Sequence, Sign, Term, Text, Wide,
    WideTerm,
};
use std::alloc::{AllocError, Global};
use yield_sizes::{Anchors, Sizes};

/// What can be copied whole.
pub trait Copied: Drop {
    /// A copy.
    fn copied(&self, alloc: Global) -> Result<Self, AllocError>
        ensures { IfOk result (λ copy. copy ≡ self.now) };
}

impl<T: Copied> Copied for Sequence<T> {
    fn copied(&self, alloc: Global) -> Result<Sequence<T>, AllocError> {
        let items = self.as_slice();
        let mut copies = Vec::with_capacity(alloc, items.len())?;
        for item in items {
            copies.push(item.copied(alloc)?)?;
        }
        Ok(Sequence::new(copies))
    }
}

impl Copied for Text {
    fn copied(&self, alloc: Global) -> Result<Text, AllocError> {
        Ok(Text::new(Vec::from_slice(alloc, self.bytes())?))
    }
}

impl Copied for i64 {
    fn copied(&self, _alloc: Global) -> Result<i64, AllocError> {
        Ok(*self)
    }
}

impl Copied for u32 {
    fn copied(&self, _alloc: Global) -> Result<u32, AllocError> {
        Ok(*self)
    }
}

impl Copied for bool {
    fn copied(&self, _alloc: Global) -> Result<bool, AllocError> {
        Ok(*self)
    }
}

impl Copied for Option<u32> {
    fn copied(&self, _alloc: Global) -> Result<Option<u32>, AllocError> {
        Ok(*self)
    }
}

impl Copied for (u8, i64) {
    fn copied(&self, _alloc: Global) -> Result<(u8, i64), AllocError> {
        Ok(*self)
    }
}

impl Copied for Kind {
    fn copied(&self, _alloc: Global) -> Result<Kind, AllocError> {
        Ok(*self)
    }
}

impl Copied for Class {
    fn copied(&self, alloc: Global) -> Result<Class, AllocError> {
        Ok(Class {
            name: self.name.copied(alloc)?,
            letters: self.letters.copied(alloc)?,
        })
    }
}

impl Copied for Sign {
    fn copied(&self, alloc: Global) -> Result<Sign, AllocError> {
        Ok(Sign {
            name: self.name.copied(alloc)?,
            kinds: self.kinds.copied(alloc)?,
        })
    }
}

impl Copied for Linear {
    fn copied(&self, alloc: Global) -> Result<Linear, AllocError> {
        Ok(Linear {
            constant: self.constant,
            factors: self.factors.copied(alloc)?,
        })
    }
}

/// A copy of a wide term, node by node.
fn copied_wide(alloc: Global, term: &Wide) -> Result<Wide, AllocError>
    ensures { IfOk result (λ copy. form_of copy ≡ form_of term.now) }
{
    match term {
        Wide::Number(number) => Ok(Wide::Number(*number)),
        Wide::Value(place) => Ok(Wide::Value(*place)),
        Wide::Sum(left, right) => Ok(Wide::Sum(
            Box::new(alloc, copied_wide(alloc, left)?)?,
            Box::new(alloc, copied_wide(alloc, right)?)?,
        )),
        Wide::Difference(left, right) => Ok(Wide::Difference(
            Box::new(alloc, copied_wide(alloc, left)?)?,
            Box::new(alloc, copied_wide(alloc, right)?)?,
        )),
        Wide::Product(left, right) => Ok(Wide::Product(
            Box::new(alloc, copied_wide(alloc, left)?)?,
            Box::new(alloc, copied_wide(alloc, right)?)?,
        )),
        Wide::Greater(left, right) => Ok(Wide::Greater(
            Box::new(alloc, copied_wide(alloc, left)?)?,
            Box::new(alloc, copied_wide(alloc, right)?)?,
        )),
        Wide::Lesser(left, right) => Ok(Wide::Lesser(
            Box::new(alloc, copied_wide(alloc, left)?)?,
            Box::new(alloc, copied_wide(alloc, right)?)?,
        )),
    }
}

impl Copied for WideTerm {
    fn copied(&self, alloc: Global) -> Result<WideTerm, AllocError> {
        Ok(WideTerm::new(copied_wide(alloc, self.root())?))
    }
}

impl Copied for Term {
    fn copied(&self, alloc: Global) -> Result<Term, AllocError> {
        let copy = match self {
            Term::Linear(term) => Term::Linear(term.copied(alloc)?),
            Term::Wide(term) => Term::Wide(term.copied(alloc)?),
        };
        Ok(copy)
    }
}

impl Copied for Algebra {
    fn copied(&self, alloc: Global) -> Result<Algebra, AllocError> {
        Ok(Algebra {
            name: self.name.copied(alloc)?,
            goal: self.goal,
            terms: self.terms.copied(alloc)?,
        })
    }
}

impl Copied for Arg {
    fn copied(&self, alloc: Global) -> Result<Arg, AllocError> {
        let copy = match self {
            Arg::Rule(rule) => Arg::Rule(*rule),
            Arg::Literal(text) => Arg::Literal(text.copied(alloc)?),
            Arg::Letter(class) => Arg::Letter(*class),
            Arg::Run { class, low, high } => Arg::Run {
                class: *class,
                low: *low,
                high: *high,
            },
        };
        Ok(copy)
    }
}

impl Copied for Alt {
    fn copied(&self, alloc: Global) -> Result<Alt, AllocError> {
        Ok(Alt {
            sign: self.sign,
            args: self.args.copied(alloc)?,
            size: self.size,
        })
    }
}

impl Copied for Rule {
    fn copied(&self, alloc: Global) -> Result<Rule, AllocError> {
        Ok(Rule {
            name: self.name.copied(alloc)?,
            alts: self.alts.copied(alloc)?,
        })
    }
}

impl Copied for Grammar {
    fn copied(&self, alloc: Global) -> Result<Grammar, AllocError> {
        Ok(Grammar {
            classes: self.classes.copied(alloc)?,
            signs: self.signs.copied(alloc)?,
            algebras: self.algebras.copied(alloc)?,
            rules: self.rules.copied(alloc)?,
            axiom: self.axiom,
        })
    }
}

impl Copied for Sizes {
    fn copied(&self, alloc: Global) -> Result<Sizes, AllocError> {
        Ok(Sizes {
            least: self.least.copied(alloc)?,
            greatest: self.greatest.copied(alloc)?,
        })
    }
}

impl Copied for Anchors {
    fn copied(&self, alloc: Global) -> Result<Anchors, AllocError> {
        Ok(Anchors {
            left: self.left.copied(alloc)?,
            right: self.right.copied(alloc)?,
        })
    }
}
