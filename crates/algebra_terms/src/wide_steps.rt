//! From the tokens of a wide term to the steps that build it.

ghost use Rattle.std.specs.Prelude.{◌≡◌, ◌∷◌, map, All, IfOk, OnOk};
ghost use Rattle.std.specs.Option.{option_map};
ghost use Rattle.job_texts.specs.WideText.{function_of, tree_of};
ghost use Rattle.job_texts.specs.LineTokens.{Word};
ghost use Rattle.algebra_terms.specs.Tokens.{IsIn, said, symbol_of};
ghost use Rattle.algebra_terms.specs.WideSteps.{Takes, at_atom, at_behind, at_bracket, at_start, at_sum, begins_bracket, behind_atom, behind_product, called, closed, ended, joined_by, operation_of, parted, reading, reading_seen, steps_of, steps_seen, taken, with_leaf};

use crate::lexer::Token;
use crate::pile::Pile;
use crate::symbols::{Symbol, split_symbol};
use std::alloc::{AllocError, Global};

/// What joins the two sides of a term.
#[derive(Clone, Copy, Debug, PartialEq, Eq)]
pub(crate) enum Operation {
    Sum,
    Difference,
    Product,
    Greater,
    Lesser,
}

/// A leaf to put on a pile of terms, or the two topmost to join.
#[derive(Clone, Copy, Debug)]
pub(crate) enum Step<'a> {
    Leaf(&'a [u8]),
    Join(Operation),
}

/// What is open: a bracket, the first or the second side of a function, or an operation whose right side is still to
/// be read.
#[derive(Clone, Copy, Debug, PartialEq, Eq)]
pub(crate) enum Open {
    Bracket,
    First(Operation),
    Second(Operation),
    Plus,
    Minus,
    Times,
}

/// What may stand next: a sum with a sign or none, an atom, the bracket of a function, or what stands behind an atom.
#[derive(Clone, Copy, Debug, PartialEq, Eq)]
pub(crate) enum Next {
    Sum,
    Atom,
    Bracket,
    Behind,
}

/// A term that is read token by token. What is open lies on a pile of its own, so that brackets may be as deep as
/// memory allows.
#[derive(Drop)]
pub(crate) struct Reader<'a> {
    next: Next,
    open_joins: Pile<Open>,
    steps: Vec<Step<'a>>,
}

impl<'a> Reader<'a> {
    fn new(alloc: Global) -> Reader<'a>
        ensures { reading_seen result ≡ at_start }
    {
        Reader {
            next: Next::Sum,
            open_joins: Pile::new(alloc),
            steps: Vec::new(alloc),
        }
    }

    // An atom is read: a product that waits for it is done.
    fn end_atom(&mut self) -> Result<(), AllocError>
        ensures { OnOk result (reading_seen self.new
            ≡ behind_atom (reading_seen self.old).open' (reading_seen self.old).steps) }
    {
        self.next = Next::Behind;
        match self.open_joins.pop() {
            None => Ok(()),
            Some(Open::Times) => self.join(Operation::Product),
            Some(other) => self.open_joins.push(other),
        }
    }

    // A product is read: a sum that waits for it is done.
    fn end_product(&mut self) -> Result<(), AllocError>
        ensures { OnOk result (reading_seen self.new
            ≡ behind_product (reading_seen self.old).open' (reading_seen self.old).steps) }
    {
        self.next = Next::Behind;
        match self.open_joins.pop() {
            None => Ok(()),
            Some(Open::Plus) => self.join(Operation::Sum),
            Some(Open::Minus) => self.join(Operation::Difference),
            Some(other) => self.open_joins.push(other),
        }
    }

    fn join(&mut self, operation: Operation) -> Result<(), AllocError>
        ensures { OnOk result (reading_seen self.new ≡ joined_by operation (reading_seen self.old)) }
    {
        self.steps.push(Step::Join(operation))?;
        Ok(())
    }

    fn leaf(&mut self, word: &'a [u8]) -> Result<(), AllocError>
        ensures { OnOk result (reading_seen self.new ≡ with_leaf word.entry.now (reading_seen self.old)) }
    {
        self.steps.push(Step::Leaf(word))?;
        Ok(())
    }

    fn open(&mut self, mark: Open, next: Next) -> Result<(), AllocError>
        ensures { OnOk result (reading_seen self.new
            ≡ reading next (mark ∷ (reading_seen self.old).open') (reading_seen self.old).steps) }
    {
        self.open_joins.push(mark)?;
        self.next = next;
        Ok(())
    }

    // Takes a token where an atom has to stand; whether it may stand there.
    fn take_atom(&mut self, symbol: Symbol<'a>, opens: bool) -> Result<bool, AllocError>
        ensures { IfOk result (λ takes. Takes (at_atom (reading_seen self.old).open' (reading_seen self.old).steps
            (symbol_of symbol.entry) opens) takes (reading_seen self.new)) }
    {
        match symbol {
            Symbol::OpenBracket => {
                self.open(Open::Bracket, Next::Sum)?;
                Ok(true)
            }
            Symbol::Word(word) => self.take_word(word, opens),
            _ => Ok(false),
        }
    }

    // Takes a word: a leaf, or a function where a bracket stands behind it.
    fn take_word(&mut self, word: &'a [u8], opens: bool) -> Result<bool, AllocError>
        ensures { IfOk result (λ takes. Takes (at_atom (reading_seen self.old).open' (reading_seen self.old).steps
            (Word word.entry.now) opens) takes (reading_seen self.new)) }
    {
        if opens {
            return self.take_function(word);
        }
        self.leaf(word)?;
        self.end_atom()?;
        Ok(true)
    }

    fn take_function(&mut self, word: &[u8]) -> Result<bool, AllocError>
        ensures { IfOk result (λ takes. Takes (called (reading_seen self.old).open' (reading_seen self.old).steps
            word.now) takes (reading_seen self.new)) }
    {
        let Some(operation) = function_of(word) else {
            return Ok(false);
        };
        self.open(Open::First(operation), Next::Bracket)?;
        Ok(true)
    }

    // Takes a token where a sum begins.
    fn take_sum(&mut self, symbol: Symbol<'a>, opens: bool) -> Result<bool, AllocError>
        ensures { IfOk result (λ takes. Takes (at_sum (reading_seen self.old).open' (reading_seen self.old).steps
            (symbol_of symbol.entry) opens) takes (reading_seen self.new)) }
    {
        match symbol {
            Symbol::Minus => {
                self.leaf(b"0")?;
                self.open(Open::Minus, Next::Atom)?;
                Ok(true)
            }
            other => self.take_atom(other, opens),
        }
    }

    // Takes a token behind an atom.
    fn take_behind(&mut self, symbol: Symbol<'a>) -> Result<bool, AllocError>
        ensures { IfOk result (λ takes. Takes (at_behind (reading_seen self.old).open' (reading_seen self.old).steps
            (symbol_of symbol.entry)) takes (reading_seen self.new)) }
    {
        match symbol {
            Symbol::Times => {
                self.open(Open::Times, Next::Atom)?;
                Ok(true)
            }
            Symbol::Plus => {
                self.end_product()?;
                self.open(Open::Plus, Next::Atom)?;
                Ok(true)
            }
            Symbol::Minus => {
                self.end_product()?;
                self.open(Open::Minus, Next::Atom)?;
                Ok(true)
            }
            Symbol::CloseBracket => {
                self.end_product()?;
                self.close()
            }
            Symbol::Comma => {
                self.end_product()?;
                self.part()
            }
            _ => Ok(false),
        }
    }

    // Takes a closing bracket behind a sum.
    fn close(&mut self) -> Result<bool, AllocError>
        ensures { IfOk result (λ takes. Takes (closed (reading_seen self.old).open' (reading_seen self.old).steps)
            takes (reading_seen self.new)) }
    {
        match self.open_joins.pop() {
            Some(Open::Bracket) => {
                self.end_atom()?;
                Ok(true)
            }
            Some(Open::Second(operation)) => {
                self.join(operation)?;
                self.end_atom()?;
                Ok(true)
            }
            _ => Ok(false),
        }
    }

    // Takes a comma behind a sum.
    fn part(&mut self) -> Result<bool, AllocError>
        ensures { IfOk result (λ takes. Takes (parted (reading_seen self.old).open' (reading_seen self.old).steps)
            takes (reading_seen self.new)) }
    {
        match self.open_joins.pop() {
            Some(Open::First(operation)) => {
                self.open(Open::Second(operation), Next::Sum)?;
                Ok(true)
            }
            _ => Ok(false),
        }
    }

    // Takes a token, before an opening bracket or not; whether it may stand there.
    fn take(&mut self, symbol: Symbol<'a>, opens: bool) -> Result<bool, AllocError>
        ensures { IfOk result (λ takes. Takes (taken (reading_seen self.old) (symbol_of symbol.entry) opens)
            takes (reading_seen self.new)) }
    {
        match self.next {
            Next::Sum => self.take_sum(symbol, opens),
            Next::Atom => self.take_atom(symbol, opens),
            Next::Bracket => Ok(self.take_bracket(symbol)),
            Next::Behind => self.take_behind(symbol),
        }
    }

    // Takes the bracket of a function.
    fn take_bracket(&mut self, symbol: Symbol<'a>) -> bool
        ensures { Takes (at_bracket (reading_seen self.old).open' (reading_seen self.old).steps
            (symbol_of symbol.entry)) result (reading_seen self.new) }
    {
        match symbol {
            Symbol::OpenBracket => {
                self.next = Next::Sum;
                true
            }
            _ => false,
        }
    }

    // The steps of the term, where it ends here.
    fn end(mut self) -> Result<Option<Vec<Step<'a>>>, AllocError>
        ensures { IfOk result (λ found. option_map (λ steps. steps_seen steps.items) found
            ≡ ended (reading_seen self.entry)) }
    {
        match self.next {
            Next::Behind => {
                self.end_product()?;
                match self.open_joins.pop() {
                    None => Ok(Some(self.steps)),
                    Some(_) => Ok(None),
                }
            }
            _ => Ok(None),
        }
    }
}

fn function_of(word: &[u8]) -> Option<Operation>
    ensures { option_map operation_of result ≡ function_of word.now }
{
    match word {
        b"max" => Some(Operation::Greater),
        b"min" => Some(Operation::Lesser),
        _ => None,
    }
}

fn begins_bracket(line: &[u8], tokens: &[Token]) -> bool
    requires { All (IsIn line.now) tokens.now }
    ensures { result ≡ begins_bracket (map (said line.now) tokens.now) }
{
    match split_symbol(line, tokens) {
        Some((Symbol::OpenBracket, _)) => true,
        _ => false,
    }
}

/// The steps that build the term that these tokens of a line spell; `None` where they spell none.
pub(crate) fn wide_steps<'a>(
    alloc: Global,
    line: &'a [u8],
    tokens: &[Token],
) -> Result<Option<Vec<Step<'a>>>, AllocError>
    requires { All (IsIn line.now) tokens.now }
    ensures { IfOk result (λ found. option_map (λ steps. steps_seen steps.items) found
        ≡ option_map steps_of (tree_of (map (said line.now) tokens.now))) }
{
    let mut reader = Reader::new(alloc);
    let mut rest = tokens;
    'tokens: while let Some((symbol, behind)) = split_symbol(line, rest) {
        if !reader.take(symbol, begins_bracket(line, behind))? {
            return Ok(None);
        }
        rest = behind;
    }
    reader.end()
}
