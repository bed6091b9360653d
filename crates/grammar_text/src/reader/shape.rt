// The shapes of header lines: from the tokens of a line to what it says.

ghost use Rattle.std.specs.Prelude.{◌≡◌, ◌+◌, ◌*◌, ◌≤◌, ◌<◌, ◌^◌, ◌∷◌, false, true, length, map, drop, is_none, is_some, All, IfOk, IfSome, IsSome, codes};
ghost use Rattle.std.specs.List.{list_all};
ghost use Rattle.adp_model.specs.Printable.{is_printable_byte};
ghost use Rattle.std.specs.Option.{option_copied, option_map};
ghost use Rattle.job_texts.specs.LineTokens as lines;
ghost use Rattle.job_texts.specs.JobLines as job_lines;
ghost use Rattle.job_texts.specs.LetTerms.{is_second, term_of_text, term_of_tokens};
ghost use Rattle.job_texts.specs.Declarations as forms;
ghost use Rattle.algebra_terms.specs.Tokens.{IsIn, placed};
ghost use Rattle.algebra_terms.specs.Tokens.{said as token_said};
ghost use Rattle.grammar_text.specs.Seen.{alternative_seen, argument_seen, declaration_seen, item_seen, kept_size_seen, let_tokens_seen, line_seen, size_seen, tokens_seen, behind_class, behind_clause, behind_low, AreArguments, IsArgumentEnd, IsBehindAlternative, IsBehindArgument, IsBehindKind, IsFirstArgument, IsFirstItem, IsFirstKind, IsFirstSign, IsFirstVariable, IsHighBound, IsSizeEnd};

use crate::reader::declaration::{
    Alternative, Argument, Declaration, HeaderLine, Item, SizeWords, Term,
};
use adp_model::{Goal, Kind, is_printable};
use algebra_terms::{Symbol, Token, TokenError, is_term, is_wide_term, symbol_at, tokens};
use std::alloc::{AllocError, Global};

/// The room that is taken for the alternatives of a rule and for their arguments before the second: of many rules most
/// have one of each, and growth from nothing would take room for four.
const USUAL: usize = 1;

// What follows behind one of a list.
#[derive(Clone, Copy)]
enum Next {
    Another,
    End,
}

/// What a header line of a text of this format is.
pub(crate) fn header_line<'a>(
    alloc: Global,
    version: u8,
    line: &'a [u8],
) -> Result<HeaderLine<'a>, AllocError>
    requires { length line.now ≤ 2 ^ 31 }
    ensures { IfOk result (λ found. line_seen found ≡ forms.header_line version line.now) }
{
    if is_skipped(line) {
        return Ok(HeaderLine::Skipped);
    }
    if !is_printable(line) {
        return Ok(HeaderLine::Unprintable);
    }
    match tokens(alloc, line) {
        Ok(tokens) => by_shape(alloc, version, line, &tokens),
        Err(TokenError::OpenQuote) => Ok(HeaderLine::Unclosed),
        Err(TokenError::StrayByte) => Ok(HeaderLine::Shapeless),
        Err(TokenError::Memory) => Err(AllocError),
    }
}

fn is_skipped(line: &[u8]) -> bool
    ensures { result ≡ job_lines.is_skipped line.now }
{
    has_only_spaces(line) || line.first() == Some(&b'#')
}

fn has_only_spaces(line: &[u8]) -> bool
    ensures { result ≡ list_all (lines.is_one_of (codes " ")) line.now }
{
    line.iter().all(|byte| *byte == b' ')
}

// What a line of these tokens is.
fn by_shape<'a>(
    alloc: Global,
    version: u8,
    line: &'a [u8],
    tokens: &[Token],
) -> Result<HeaderLine<'a>, AllocError>
    requires tokens { lines.line_tokens line.now ≡ Ok (map (placed line.now) tokens.now) }
    requires spans { All (IsIn line.now) tokens.now }
    requires short { length line.now ≤ 2 ^ 31 }
    requires not_skipped { job_lines.is_skipped line.now ≡ false }
    requires printable { list_all is_printable_byte line.now ≡ true }
    ensures { IfOk result (λ found. line_seen found ≡ forms.header_line version line.now) }
{
    let said = symbols(alloc, line, tokens)?;
    match declaration(alloc, version, line, tokens, &said)? {
        Some(declaration) => Ok(HeaderLine::Says(declaration)),
        None => Ok(HeaderLine::Shapeless),
    }
}

// What the tokens of a line say, in order.
fn symbols<'a>(
    alloc: Global,
    line: &'a [u8],
    tokens: &[Token],
) -> Result<Vec<Symbol<'a>>, AllocError>
    requires { All (IsIn line.now) tokens.now }
    ensures { IfOk result (λ symbols. tokens_seen symbols.items ≡ map (token_said line.now) tokens.now) }
{
    let mut symbols = Vec::with_capacity(alloc, tokens.len())?;
    for token in tokens {
        symbols.push(symbol_at(line, token))?;
    }
    Ok(symbols)
}

// What the tokens of a line say; `None` where they match no shape.
fn declaration<'a>(
    alloc: Global,
    version: u8,
    line: &'a [u8],
    tokens: &[Token],
    said: &[Symbol<'a>],
) -> Result<Option<Declaration<'a>>, AllocError>
    requires tokens { lines.line_tokens line.now ≡ Ok (map (placed line.now) tokens.now) }
    requires spans { All (IsIn line.now) tokens.now }
    requires short { length line.now ≤ 2 ^ 31 }
    requires said { tokens_seen said.now ≡ map (token_said line.now) tokens.now }
    ensures { IfOk result
        (λ found. option_map declaration_seen found ≡ forms.declaration_of version (tokens_seen said.now)) }
{
    let [Symbol::Word(word), rest @ ..] = said else {
        return Ok(None);
    };
    if is_word(b"class", word) {
        class(alloc, rest)
    } else if is_word(b"sign", word) {
        sign(alloc, rest)
    } else if is_word(b"algebra", word) {
        Ok(algebra(rest))
    } else if is_word(b"let", word) {
        let_line(alloc, version, line, tokens, rest)
    } else if is_word(b"rule", word) {
        rule(alloc, version, rest)
    } else if is_word(b"grammar", word) {
        Ok(axiom(rest))
    } else if is_word(b"words", word) {
        Ok(nothing_more(rest))
    } else {
        Ok(None)
    }
}

fn is_word(keyword: &[u8], word: &[u8]) -> bool
    ensures { result ≡ forms.is_word keyword.now word.now }
{
    keyword == word
}

fn class<'a>(alloc: Global, said: &[Symbol<'a>]) -> Result<Option<Declaration<'a>>, AllocError>
    ensures { IfOk result (λ found. option_map declaration_seen found ≡ forms.class_of (tokens_seen said.now)) }
{
    let [Symbol::Word(name), Symbol::Equals, rest @ ..] = said else {
        return Ok(None);
    };
    let Some(items) = items(alloc, rest)? else {
        return Ok(None);
    };
    Ok(Some(Declaration::Class { name, items }))
}

// At least one item.
fn items<'a>(alloc: Global, said: &[Symbol<'a>]) -> Result<Option<Vec<Item<'a>>>, AllocError>
    ensures { IfOk result
        (λ found. option_map (λ items. map item_seen items.items) found ≡ forms.items_of (tokens_seen said.now)) }
{
    if said.is_empty() {
        return Ok(None);
    }
    let mut items = Vec::new(alloc);
    let mut at = 0;
    while at < said.len() {
        let Some((item, used)) = first_item(&said[at..]) else {
            return Ok(None);
        };
        items.push(item)?;
        at += used;
    }
    Ok(Some(items))
}

// The item that these tokens begin with, and how many of them it has.
fn first_item<'a>(said: &[Symbol<'a>]) -> Option<(Item<'a>, usize)>
    requires { 0 < length said.now }
    ensures { IsFirstItem said.now result }
{
    match said {
        [Symbol::Quoted(letters), Symbol::Word(number), ..] => Some((
            Item {
                letters,
                negative: false,
                number,
            },
            2,
        )),
        [
            Symbol::Quoted(letters),
            Symbol::Minus,
            Symbol::Word(number),
            ..
        ] => Some((
            Item {
                letters,
                negative: true,
                number,
            },
            3,
        )),
        _ => None,
    }
}

fn sign<'a>(alloc: Global, said: &[Symbol<'a>]) -> Result<Option<Declaration<'a>>, AllocError>
    ensures { IfOk result (λ found. option_map declaration_seen found ≡ forms.sign_of (tokens_seen said.now)) }
{
    let [Symbol::Word(name), Symbol::OpenBracket, rest @ ..] = said else {
        return Ok(None);
    };
    let Some(kinds) = kinds(alloc, rest)? else {
        return Ok(None);
    };
    Ok(Some(Declaration::Sign { name, kinds }))
}

fn kind(word: &[u8]) -> Option<Kind>
    ensures { result ≡ forms.kind_of word.now }
{
    match word {
        b"score" => Some(Kind::Score),
        b"token" => Some(Kind::Token),
        _ => None,
    }
}

// Kinds with a comma between two, up to the closing bracket, which is last.
fn kinds(alloc: Global, said: &[Symbol<'_>]) -> Result<Option<Vec<Kind>>, AllocError>
    ensures { IfOk result
        (λ found. option_map (λ kinds. kinds.items) found ≡ forms.kinds_of (tokens_seen said.now)) }
{
    let mut kinds = Vec::new(alloc);
    let mut at = 0;
    while let Some((kind, next)) = first_kind(&said[at..]) {
        kinds.push(kind)?;
        match next {
            Next::End => return Ok(Some(kinds)),
            Next::Another => at += 2,
        }
    }
    Ok(None)
}

// The kind that these tokens begin with, and what follows it.
fn first_kind(said: &[Symbol<'_>]) -> Option<(Kind, Next)>
    ensures { IsFirstKind said.now result }
{
    let [Symbol::Word(word), behind @ ..] = said else {
        return None;
    };
    let next = behind_kind(behind)?;
    Some((kind(word)?, next))
}

// What stands behind a kind: a comma and another one, or the closing bracket, which is last.
fn behind_kind(said: &[Symbol<'_>]) -> Option<Next>
    ensures { IsBehindKind said.now result }
{
    match said {
        [Symbol::Comma, ..] => Some(Next::Another),
        [Symbol::CloseBracket] => Some(Next::End),
        _ => None,
    }
}

fn algebra<'a>(said: &[Symbol<'a>]) -> Option<Declaration<'a>>
    ensures { option_map declaration_seen result ≡ forms.algebra_of (tokens_seen said.now) }
{
    match said {
        [Symbol::Word(name), Symbol::Word(b"min")] => Some(Declaration::Algebra {
            name,
            goal: Goal::Least,
        }),
        [Symbol::Word(name), Symbol::Word(b"max")] => Some(Declaration::Algebra {
            name,
            goal: Goal::Greatest,
        }),
        _ => None,
    }
}

// What a `let` line of these tokens says, by the tokens behind its first.
fn let_line<'a>(
    alloc: Global,
    version: u8,
    line: &'a [u8],
    tokens: &[Token],
    said: &[Symbol<'a>],
) -> Result<Option<Declaration<'a>>, AllocError>
    requires tokens { lines.line_tokens line.now ≡ Ok (map (placed line.now) tokens.now) }
    requires spans { All (IsIn line.now) tokens.now }
    requires short { length line.now ≤ 2 ^ 31 }
    requires said { tokens_seen said.now ≡ map (token_said line.now) (drop 1 tokens.now) }
    ensures { IfOk result (λ found. option_map declaration_seen found ≡ forms.let_of version (tokens_seen said.now)) }
{
    let [Symbol::Word(sign), Symbol::OpenBracket, rest @ ..] = said else {
        return Ok(None);
    };
    let Some(variables) = variables(alloc, rest)? else {
        return Ok(None);
    };
    // Before the `=` stand `let`, the sign and its bracket, and each variable with the mark behind it.
    let equals = 3 + 2 * variables.len();
    if !spells_term(alloc, version, line, &tokens[equals + 1..])? {
        return Ok(None);
    }
    let term = term_behind(version, line, tokens, equals);
    Ok(Some(Declaration::Let {
        sign,
        variables,
        term,
    }))
}

// Whether these tokens of a line spell a term of this format.
fn spells_term(
    alloc: Global,
    version: u8,
    line: &[u8],
    tokens: &[Token],
) -> Result<bool, AllocError>
    requires { All (IsIn line.now) tokens.now }
    ensures { IfOk result
        (λ spells. spells ≡ is_some (term_of_tokens version (map (token_said line.now) tokens.now))) }
{
    if is_second(version) {
        is_wide_term(alloc, line, tokens)
    } else {
        Ok(is_term(line, tokens))
    }
}

/// Whether a format is the one with wide terms and with sizes of alternatives.
pub(crate) fn is_second(version: u8) -> bool
    ensures { result ≡ is_second version }
{
    version == 2
}

// The term that the tokens behind this one spell.
fn term_behind<'a>(version: u8, line: &'a [u8], tokens: &[Token], equals: usize) -> Term<'a>
    requires tokens { lines.line_tokens line.now ≡ Ok (map (placed line.now) tokens.now) }
    requires spans { All (IsIn line.now) tokens.now }
    requires short { length line.now ≤ 2 ^ 31 }
    requires inside { equals < length tokens.now }
    requires spelled { IsSome (term_of_tokens version (map (token_said line.now) (drop (equals + 1) tokens.now))) }
    ensures spelled { term_of_text version result.bytes.now
        ≡ term_of_tokens version (map (token_said line.now) (drop (equals + 1) tokens.now)) }
    ensures version { result.version ≡ version }
{
    let bytes = &line[tokens[equals].to as usize..];
    Term { version, bytes }
}

// Variables with a comma between two, up to the closing bracket, behind which an `=` stands.
fn variables<'a>(alloc: Global, said: &[Symbol<'a>]) -> Result<Option<Vec<&'a [u8]>>, AllocError>
    ensures variables { IfOk result
        (λ found. option_map (λ variables. let_tokens_seen variables.items said.now) found
        ≡ forms.let_tokens (tokens_seen said.now)) }
    ensures within { IfOk result (λ found. IfSome found (λ variables. 2 * length variables.items < length said.now)) }
{
    let mut variables = Vec::new(alloc);
    let mut at = 0;
    while let Some((variable, next)) = first_variable(&said[at..]) {
        variables.push(variable)?;
        match next {
            Next::End => return Ok(Some(variables)),
            Next::Another => at += 2,
        }
    }
    Ok(None)
}

// The variable that these tokens begin with, and what the marks behind it say.
fn first_variable<'a>(said: &[Symbol<'a>]) -> Option<(&'a [u8], Next)>
    ensures { IsFirstVariable said.now result }
{
    match said {
        [Symbol::Word(variable), Symbol::Comma, ..] => Some((variable, Next::Another)),
        [
            Symbol::Word(variable),
            Symbol::CloseBracket,
            Symbol::Equals,
            ..
        ] => Some((variable, Next::End)),
        _ => None,
    }
}

fn rule<'a>(
    alloc: Global,
    version: u8,
    said: &[Symbol<'a>],
) -> Result<Option<Declaration<'a>>, AllocError>
    ensures { IfOk result
        (λ found. option_map declaration_seen found ≡ forms.rule_of version (tokens_seen said.now)) }
{
    let [Symbol::Word(name), Symbol::Equals, rest @ ..] = said else {
        return Ok(None);
    };
    let Some(alternatives) = alternatives(alloc, rest)? else {
        return Ok(None);
    };
    if !is_second(version) && !have_no_sizes(&alternatives) {
        return Ok(None);
    }
    Ok(Some(Declaration::Rule { name, alternatives }))
}

fn have_no_sizes(alternatives: &[Alternative<'_>]) -> bool
    ensures { result ≡ list_all (λ alternative. is_none alternative.size) (map alternative_seen alternatives.now) }
{
    alternatives
        .iter()
        .all(|alternative| has_no_size(alternative))
}

fn has_no_size(alternative: &Alternative<'_>) -> bool
    ensures { result ≡ is_none (alternative_seen alternative.now).size }
{
    alternative.size.is_none()
}

// Alternatives with a `|` between two, the last up to the end of the line.
fn alternatives<'a>(
    alloc: Global,
    said: &[Symbol<'a>],
) -> Result<Option<Vec<Alternative<'a>>>, AllocError>
    ensures { IfOk result
        (λ found. option_map (λ alternatives. map alternative_seen alternatives.items) found
        ≡ forms.alternatives_of (tokens_seen said.now)) }
{
    let mut alternatives = Vec::with_capacity(alloc, USUAL)?;
    let mut at = 0;
    while let Some(sign) = first_sign(&said[at..]) {
        let Some((arguments, used)) = arguments(alloc, &said[at + 2..])? else {
            return Ok(None);
        };
        at = at + 2 + used;
        let Some((size, next, used)) = behind_alternative(&said[at..]) else {
            return Ok(None);
        };
        let size = kept_apart(alloc, size)?;
        alternatives.push(Alternative {
            sign,
            arguments,
            size,
        })?;
        match next {
            Next::End => return Ok(Some(alternatives)),
            Next::Another => at += used,
        }
    }
    Ok(None)
}

// A size in a place of its own.
fn kept_apart<'a>(
    alloc: Global,
    size: Option<SizeWords<'a>>,
) -> Result<Option<Box<SizeWords<'a>>>, AllocError>
    ensures { IfOk result (λ kept. kept_size_seen kept ≡ option_map size_seen size.entry) }
{
    match size {
        Some(size) => Ok(Some(Box::new(alloc, size)?)),
        None => Ok(None),
    }
}

// The sign of the alternative that these tokens begin with.
fn first_sign<'a>(said: &[Symbol<'a>]) -> Option<&'a [u8]>
    ensures { IsFirstSign said.now result }
{
    match said {
        [Symbol::Word(sign), Symbol::OpenBracket, ..] => Some(sign),
        _ => None,
    }
}

// What stands behind the closing bracket of an alternative: a size or none, and a `|` with another alternative or
// nothing; and how many tokens up to that one.
fn behind_alternative<'a>(said: &[Symbol<'a>]) -> Option<(Option<SizeWords<'a>>, Next, usize)>
    ensures { IsBehindAlternative said.now result }
{
    match said {
        [] => Some((None, Next::End, 0)),
        [Symbol::Bar, ..] => Some((None, Next::Another, 1)),
        [Symbol::Word(first), Symbol::Word(second), rest @ ..] => {
            if !is_clause(first, second) {
                return None;
            }
            match size_behind(rest) {
                Some((size, next, used)) => Some((Some(size), next, 2 + used)),
                None => None,
            }
        }
        _ => None,
    }
}

// Whether these words begin a size.
fn is_clause(first: &[u8], second: &[u8]) -> bool
    ensures { result ≡ forms.is_clause first.now second.now }
{
    is_word(b"with", first) && is_word(b"size", second)
}

// The size that stands behind `with size`, what follows it, and how many tokens up to that.
fn size_behind<'a>(said: &[Symbol<'a>]) -> Option<(SizeWords<'a>, Next, usize)>
    ensures { IsSizeEnd (λ tokens. behind_clause tokens) said.now result }
{
    let [Symbol::Word(low), Symbol::Dots, rest @ ..] = said else {
        return None;
    };
    let (size, next, used) = size_from(low, rest)?;
    Some((size, next, 2 + used))
}

// The same behind the low bound and its dots.
fn size_from<'a>(low: &'a [u8], said: &[Symbol<'a>]) -> Option<(SizeWords<'a>, Next, usize)>
    ensures { IsSizeEnd (λ tokens. behind_low low.now tokens) said.now result }
{
    match said {
        [] => Some((SizeWords { low, high: None }, Next::End, 0)),
        [Symbol::Bar, ..] => Some((SizeWords { low, high: None }, Next::Another, 1)),
        [Symbol::Word(high)] => {
            let high = Some(*high);
            Some((SizeWords { low, high }, Next::End, 1))
        }
        [Symbol::Word(high), Symbol::Bar, ..] => {
            let high = Some(*high);
            Some((SizeWords { low, high }, Next::Another, 2))
        }
        _ => None,
    }
}

// Arguments with a comma between two up to the closing bracket, and the number of tokens up to and with it.
fn arguments<'a>(
    alloc: Global,
    said: &[Symbol<'a>],
) -> Result<Option<(Vec<Argument<'a>>, usize)>, AllocError>
    ensures { IfOk result (λ found. AreArguments said.now (option_map (λ all. (all.0.items, all.1)) found)) }
{
    let mut arguments = Vec::with_capacity(alloc, USUAL)?;
    let mut at = 0;
    while let Some((argument, used)) = first_argument(&said[at..]) {
        arguments.push(argument)?;
        at += used;
        match behind_argument(&said[at..]) {
            Some(Next::End) => return Ok(Some((arguments, at + 1))),
            Some(Next::Another) => at += 1,
            None => return Ok(None),
        }
    }
    Ok(None)
}

// What stands behind an argument: a comma and another one, or the closing bracket.
fn behind_argument(said: &[Symbol<'_>]) -> Option<Next>
    ensures { IsBehindArgument said.now result }
{
    match said {
        [Symbol::Comma, ..] => Some(Next::Another),
        [Symbol::CloseBracket, ..] => Some(Next::End),
        _ => None,
    }
}

// The argument that these tokens begin with, and how many of them it has.
fn first_argument<'a>(said: &[Symbol<'a>]) -> Option<(Argument<'a>, usize)>
    ensures { IsFirstArgument said.now result }
{
    match said {
        [Symbol::Word(rule), ..] => Some((Argument::Named(rule), 1)),
        [Symbol::Quoted(letters), ..] => Some((Argument::Spelled(letters), 1)),
        [Symbol::OpenSquare, Symbol::Word(class), rest @ ..] => {
            let (argument, used) = behind_class(class, rest)?;
            Some((argument, 2 + used))
        }
        _ => None,
    }
}

// The argument of this class in square brackets that these tokens end, and how many of them it has.
fn behind_class<'a>(class: &'a [u8], said: &[Symbol<'a>]) -> Option<(Argument<'a>, usize)>
    ensures { IsArgumentEnd (λ tokens. behind_class class.now tokens) said.now result }
{
    match said {
        [Symbol::CloseSquare, ..] => Some((Argument::OneOf(class), 1)),
        [Symbol::Word(low), Symbol::Dots, rest @ ..] => {
            let (high, used) = high_bound(rest)?;
            Some((run_of_class(class, low, high), 2 + used))
        }
        _ => None,
    }
}

fn run_of_class<'a>(class: &'a [u8], low: &'a [u8], high: Option<&'a [u8]>) -> Argument<'a>
    ensures { argument_seen result ≡ forms.RunOf class.now low.now (option_copied high.entry) }
{
    match high {
        Some(high) => Argument::RunOf { class, low, high },
        None => Argument::RunFrom { class, low },
    }
}

// The high bound behind `..`, where there is one, and how many tokens it has with its bracket.
fn high_bound<'a>(said: &[Symbol<'a>]) -> Option<(Option<&'a [u8]>, usize)>
    ensures { IsHighBound said.now result }
{
    match said {
        [Symbol::CloseSquare, ..] => Some((None, 1)),
        [Symbol::Word(high), Symbol::CloseSquare, ..] => Some((Some(high), 2)),
        _ => None,
    }
}

fn axiom<'a>(said: &[Symbol<'a>]) -> Option<Declaration<'a>>
    ensures { option_map declaration_seen result ≡ forms.axiom_of (tokens_seen said.now) }
{
    match said {
        [Symbol::Word(rule)] => Some(Declaration::Axiom { rule }),
        _ => None,
    }
}

fn nothing_more<'a>(said: &[Symbol<'a>]) -> Option<Declaration<'a>>
    ensures { option_map declaration_seen result ≡ forms.nothing_more (tokens_seen said.now) }
{
    if said.is_empty() {
        Some(Declaration::Words)
    } else {
        None
    }
}
