ghost use Rattle.std.specs.Prelude.{◌≡◌, IfOk, List, None};
ghost use Rattle.adp_model.specs.declared.grammar.Term.TheVariants as terms;
ghost use Rattle.adp_model.specs.BigReport.{pairs_grammar, paired};
ghost use Rattle.adp_model.specs.Printable.{IsPrintable};

use adp_model::{
    Algebra, Alt, Arg, Class, Goal, Grammar, Kind, Linear, Rule, Sequence, Sign, Term, Text,
};
use std::alloc::{AllocError, Global};

/// The grammar of pairs along a line, p with q and r with s, as many as there can be.
pub fn pairs_grammar(alloc: Global) -> Result<Grammar, AllocError>
    ensures { IfOk result (λ grammar. grammar ≡ pairs_grammar) }
{
    Ok(Grammar {
        classes: classes(alloc)?,
        signs: signs(alloc)?,
        algebras: algebras(alloc)?,
        rules: rules(alloc)?,
        axiom: 0,
    })
}

fn classes(alloc: Global) -> Result<Sequence<Class>, AllocError>
    ensures { IfOk result (λ classes. classes ≡ pairs_grammar.classes) }
{
    let any = Class {
        name: text(alloc, b"any")?,
        letters: Sequence::new(vec![in alloc; (b'p', 0), (b'q', 0), (b'r', 0), (b's', 0)]?),
    };
    Ok(Sequence::new(vec![in alloc; any]?))
}

fn signs(alloc: Global) -> Result<Sequence<Sign>, AllocError>
    ensures { IfOk result (λ signs. signs ≡ pairs_grammar.signs) }
{
    let nil = sign(alloc, b"nil", vec![in alloc; Kind::Token]?)?;
    let skip = sign(alloc, b"skip", vec![in alloc; Kind::Token, Kind::Score]?)?;
    let pair = sign(
        alloc,
        b"pair",
        vec![in alloc; Kind::Token, Kind::Score, Kind::Token, Kind::Score]?,
    )?;
    Ok(Sequence::new(vec![in alloc; nil, skip, pair]?))
}

fn algebras(alloc: Global) -> Result<Sequence<Algebra>, AllocError>
    ensures { IfOk result (λ algebras. algebras ≡ pairs_grammar.algebras) }
{
    let nil = term(0, vec![in alloc; 0]?);
    let skip = term(0, vec![in alloc; 0, 1]?);
    let pair = term(1, vec![in alloc; 0, 1, 0, 1]?);
    let pairs = Algebra {
        name: text(alloc, b"pairs")?,
        goal: Goal::Greatest,
        terms: Sequence::new(vec![in alloc; nil, skip, pair]?),
    };
    Ok(Sequence::new(vec![in alloc; pairs]?))
}

fn rules(alloc: Global) -> Result<Sequence<Rule>, AllocError>
    ensures { IfOk result (λ rules. rules ≡ pairs_grammar.rules) }
{
    let nil = alternative(0, vec![in alloc; Arg::Literal(text(alloc, b"")?)]?);
    let skip = alternative(1, vec![in alloc; Arg::Letter(0), Arg::Rule(0)]?);
    let outer = paired(alloc, b"p", b"q")?;
    let inner = paired(alloc, b"r", b"s")?;
    let s = Rule {
        name: text(alloc, b"s")?,
        alts: Sequence::new(vec![in alloc; nil, skip, outer, inner]?),
    };
    Ok(Sequence::new(vec![in alloc; s]?))
}

// An alternative with a pair: a letter, the rule, another letter, the rule.
fn paired(alloc: Global, first: &[u8], last: &[u8]) -> Result<Alt, AllocError>
    requires first { IsPrintable first.now }
    requires last { IsPrintable last.now }
    ensures { IfOk result (λ alternative. alternative ≡ paired first.now last.now) }
{
    let first = Arg::Literal(text(alloc, first)?);
    let last = Arg::Literal(text(alloc, last)?);
    Ok(alternative(2, vec![in alloc; first, Arg::Rule(0), last, Arg::Rule(0)]?))
}

fn sign(alloc: Global, name: &[u8], kinds: Vec<Kind>) -> Result<Sign, AllocError>
    requires { IsPrintable name.now }
    ensures name { IfOk result (λ sign. sign.name ≡ name.now) }
    ensures kinds { IfOk result (λ sign. sign.kinds ≡ kinds.items) }
{
    Ok(Sign {
        name: text(alloc, name)?,
        kinds: Sequence::new(kinds),
    })
}

fn term(constant: i64, factors: Vec<i64>) -> Term
    ensures { result ≡ terms.Linear (record { constant = constant; factors = factors.items }) }
{
    Term::Linear(Linear {
        constant,
        factors: Sequence::new(factors),
    })
}

fn alternative(sign: u32, args: Vec<Arg>) -> Alt
    ensures sign { result.sign ≡ sign }
    ensures args { result.args ≡ args.items }
    ensures size { result.size ≡ None }
{
    Alt {
        sign,
        args: Sequence::new(args),
        size: None,
    }
}

fn text(alloc: Global, bytes: &[u8]) -> Result<Text, AllocError>
    requires { IsPrintable bytes.now }
    ensures { IfOk result (λ text. text ≡ bytes.now) }
{
    Ok(Text::new(bytes.to_vec(alloc)?))
}
