//! What the letters of a word tell of its problem's classes.

ghost use Rattle.std.specs.Prelude.{◌≡◌, ℕ, ◌<◌, ◌≤◌, IfOk, List, length, pos};
ghost use Rattle.std.specs.Bool.{OnTrue};
ghost use Rattle.adp_model.specs.Parts.{letters_of};
ghost use Rattle.adp_model.specs.Tokens.{total_weight, weight_of};
ghost use Rattle.split_lines.specs.Classes.{AreClassWeights, AreLetterWeights, AreSums, IsAhead, IsBehind, IsTable};

use adp_model::{Grammar, Problem};
use std::alloc::{AllocError, Global};
use std::marker::Model;
use viable_splits::Matcher;

/// For a class and a word: how far letters of the class go on from each position, from where they go on up to each
/// position, and what the letters before each position weigh.
#[derive(Drop)]
pub struct ClassTable {
    /// For each position the last one up to which all letters are in the class.
    pub ahead: Vec<u16>,
    /// For each position the first one from which on all letters up to there are in the class.
    pub behind: Vec<u16>,
    /// For each position the weights of the letters before it, added up; letters that the class lacks weigh nothing.
    pub sums: Vec<i128>,
}

/// For each letter its weight, where a class has it.
pub type LetterWeights = [Option<i64>; 256];

/// For each letter its weight, where the class has it.
fn letter_weights(class: &[(u8, i64)]) -> LetterWeights
    ensures { AreLetterWeights class.now result }
{
    let mut weights = [None; 256];
    // from the last entry on, since of two for one letter the first one counts
    for number in (0..class.len()).rev() {
        let (letter, weight) = class[number];
        weights[letter as usize] = Some(weight);
    }
    weights
}

/// For each class of the grammar what letters weigh in it: 4 kB a class. Fails for want of memory alone.
pub fn class_weights(alloc: Global, grammar: &Grammar) -> Result<Vec<LetterWeights>, AllocError>
    ensures { IfOk result (λ weights. AreClassWeights grammar.now weights.items) }
{
    let classes = grammar.classes.as_slice();
    let mut weights = Vec::with_capacity(alloc, classes.len())?;
    for class in classes {
        weights.push(letter_weights(class.letters.as_slice()))?;
    }
    Ok(weights)
}

/// A class, and for each letter its weight in it.
#[derive(Clone, Copy)]
pub struct Weighed<'l> {
    pub class: &'l [(u8, i64)],
    pub weights: &'l LetterWeights,
}

impl Weighed<'_> {
    /// The weight of a letter, where the class has it.
    #[inline(always)]
    fn weight_of(self, letter: u8) -> Option<i64>
        requires { AreLetterWeights self.class.now self.weights.now }
        ensures { result ≡ weight_of self.entry.class.now letter }
    {
        self.weights[letter as usize]
    }
}

/// For each position the first one from which on all letters up to there are in the class.
fn behind(alloc: Global, class: Weighed<'_>, word: &[u8]) -> Result<Vec<u16>, AllocError>
    requires short { length word.now ≤ 4000 }
    requires class { AreLetterWeights class.class.now class.weights.now }
    ensures { IfOk result (λ behind. IsBehind class.entry.class.now word.now behind.items) }
{
    let mut behind = Vec::with_capacity(alloc, word.len() + 1)?;
    let mut first = 0;
    behind.push(first)?;
    for (position, letter) in word.iter().enumerate() {
        if class.weight_of(*letter).is_none() {
            first = position as u16 + 1;
        }
        behind.push(first)?;
    }
    Ok(behind)
}

/// For each position the last one up to which all letters are in the class.
fn ahead(alloc: Global, class: Weighed<'_>, word: &[u8]) -> Result<Vec<u16>, AllocError>
    requires short { length word.now ≤ 4000 }
    requires class { AreLetterWeights class.class.now class.weights.now }
    ensures { IfOk result (λ ahead. IsAhead class.entry.class.now word.now ahead.items) }
{
    let len = word.len();
    let mut ahead = vec![in alloc; len as u16; len + 1]?;
    for position in (0..len).rev() {
        let last = match class.weight_of(word[position]) {
            Some(_) => ahead[position + 1],
            None => position as u16,
        };
        ahead[position] = last;
    }
    Ok(ahead)
}

/// Whether no letter of the class weighs anything.
fn is_weightless(class: &[(u8, i64)]) -> bool
    ensures { OnTrue result ((letters : List ℕ) → total_weight class.now letters ≡ pos 0) }
{
    for (_, weight) in class {
        if *weight != 0 {
            return false;
        }
    }
    true
}

/// For each position the weights of the letters before it, added up.
fn sums(alloc: Global, class: Weighed<'_>, word: &[u8]) -> Result<Vec<i128>, AllocError>
    requires short { length word.now ≤ 4000 }
    requires class { AreLetterWeights class.class.now class.weights.now }
    ensures { IfOk result (λ sums. AreSums class.entry.class.now word.now sums.items) }
{
    if is_weightless(class.class) {
        return vec![in alloc; 0; word.len() + 1];
    }
    let mut sums = Vec::with_capacity(alloc, word.len() + 1)?;
    let mut sum = 0;
    sums.push(sum)?;
    for letter in word {
        if let Some(weight) = class.weight_of(*letter) {
            sum += i128::from(weight);
        }
        sums.push(sum)?;
    }
    Ok(sums)
}

/// The tables of a problem's classes. Contracts see them as the problem.
#[derive(Drop)]
pub struct ClassTables<'a> {
    problem: &'a Problem<'a>,
    tables: Vec<ClassTable>,
}

impl<'a> Model for ClassTables<'a> {
    ghost use Rattle.adp_model.specs.PosedProblem.{PosedProblem};

    ghost Value = { PosedProblem };

    ghost use Rattle.split_lines.specs.ClassFields.{AreAllTables};
    ghost use Rattle.adp_model.specs.WideForm.{form_code};
    ghost use Rattle.std.specs.Coded.{codes};

    ghost coded = { Prim.hlevel (codes, form_code) };

    ghost view = { λ tables. tables.problem.now };

    ghost invariant = { AreAllTables };
}

impl<'a> ClassTables<'a> {
    /// The tables of all classes, in which letters weigh this much. Fails for want of memory alone.
    pub fn new(
        alloc: Global,
        problem: &'a Problem<'a>,
        weights: &[LetterWeights],
    ) -> Result<ClassTables<'a>, AllocError>
        requires { AreClassWeights problem.now.grammar weights.now }
        ensures { IfOk result (λ tables. tables ≡ problem.now) }
    {
        let word = problem.letters();
        let classes = problem.grammar.classes.as_slice();
        let mut tables = Vec::with_capacity(alloc, classes.len())?;
        for (number, class) in classes.iter().enumerate() {
            let class = Weighed {
                class: class.letters.as_slice(),
                weights: &weights[number],
            };
            tables.push(ClassTable {
                ahead: ahead(alloc, class, word)?,
                behind: behind(alloc, class, word)?,
                sums: sums(alloc, class, word)?,
            })?;
        }
        Ok(ClassTables { problem, tables })
    }

    /// The problem.
    pub fn problem(&self) -> &'a Problem<'a>
        ensures { result.now ≡ self.now }
    {
        self.problem
    }

    /// The table of a class.
    pub fn table(&self, class: u32) -> &ClassTable
        requires { class < length self.now.grammar.classes }
        ensures { IsTable (letters_of self.now.grammar class) self.now.word result.now }
    {
        &self.tables[class as usize]
    }
}

impl<'a> Matcher for ClassTables<'a> {
    ghost posed = { λ tables. tables };

    fn problem(&self) -> &Problem<'_> {
        self.problem
    }

    /// Takes constant time.
    fn class_end(&self, class: u32, from: usize, last: usize) -> usize {
        last.min(self.table(class).ahead[from] as usize)
    }
}
