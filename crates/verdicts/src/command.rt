use std::marker::Model;

/// What the program is asked for.
#[derive(Clone, Copy, Debug, PartialEq, Eq)]
pub enum Mode {
    /// The report of each word, by evaluators that share their results.
    Best,
    /// The report of each word, by one sweep.
    Serial,
    /// The report of each word with the wins of its evaluators.
    Wins,
    /// The same, with evaluators that are stepped in the order of a schedule.
    Replay,
    /// The report of each word by two algebras in order.
    Lex,
    /// The best score of each demanded cell, line by line, and the job behind them: a certificate.
    Cert,
    /// What such lines tell of each word, where they are right.
    Verify,
    /// The first candidates of each word in the order of preference.
    KBest,
    /// The answer for a word that is made.
    Big,
}

/// What the words of a command line say, of which it borrows names and the schedule. There are 1 to 32 workers; a name
/// is one that an algebra may have, and a schedule is the text of one; a word that is made has at most 2,046 letters.
/// Contracts see a name as its bytes, and a schedule as the numbers of the machines that it steps in turn.
#[derive(Drop)]
pub struct Command<'w> {
    /// What is asked for.
    pub mode: Mode,
    /// The algebra's name, where one is named.
    pub algebra: Option<&'w str>,
    /// The second algebra's name, which there is for `Lex` alone.
    pub second: Option<&'w str>,
    /// How many workers there are.
    pub workers: u32,
    /// The seed of the workers' orders.
    pub seed: u64,
    /// The schedule, which there is for `Replay` alone.
    pub schedule: Option<&'w str>,
    /// How many first candidates of each word are asked for, at least 1 and at most 64 for `KBest`, or 0 where none are.
    pub best: u32,
    /// The size of the word that is made, at least 1 for `Big`, or 0 where none is set.
    pub size: u32,
}

impl<'w> Model for Command<'w> {
    ghost use Rattle.verdicts.specs.Command.{Command};
    ghost use Rattle.verdicts.specs.CommandFields.{AreInRange, command_of};

    ghost Value = { Command };

    ghost view = { command_of };

    ghost invariant = { AreInRange };
}

impl<'w> Command<'w> {
    ghost use Rattle.std.specs.Prelude.{◌≡◌, ◌≤◌, IfSome, IsSome, IsTrue, MatchBool};
    ghost use Rattle.adp_model.specs.WellFormed.{is_name};
    ghost use Rattle.verdicts.specs.declared.command.Mode.TheVariants.{Big, Cert, KBest, Lex, Verify};
    ghost use Rattle.verdicts.specs.Command.{ReadsJob, greatest_size, most_trees};

    /// What every command keeps. Does nothing when it runs.
    pub fn in_range(&self)
        ensures some_workers { 1 ≤ self.now.workers }
        ensures few_workers { self.now.workers ≤ 32 }
        ensures name { IfSome self.now.algebra (λ name. IsTrue (is_name name)) }
        ensures second_name { IfSome self.now.second (λ name. IsTrue (is_name name)) }
        ensures paired { self.now.mode ≡ Lex → IsSome self.now.second }
        ensures few_trees { self.now.best ≤ most_trees }
        ensures listed { self.now.mode ≡ KBest → 1 ≤ self.now.best }
        ensures size { self.now.size ≤ greatest_size }
    {
        let _ = &self.mode;
    }

    /// Whether a job is read, and no word made.
    pub fn reads_job(&self) -> bool
        ensures { MatchBool result (ReadsJob self.now.mode) (self.now.mode ≡ Big) }
    {
        match self.mode {
            Mode::Big => false,
            Mode::Best
            | Mode::Serial
            | Mode::Wins
            | Mode::Replay
            | Mode::Lex
            | Mode::Cert
            | Mode::Verify
            | Mode::KBest => true,
        }
    }

    /// Whether the job is written behind the reports of its words, which are a certificate.
    pub fn certifies(&self) -> bool
        ensures { MatchBool result (self.now.mode ≡ Cert) (self.now.mode ≡ Cert → ⊥) }
    {
        matches!(self.mode, Mode::Cert)
    }

    /// Whether a certificate is checked, and nothing found.
    pub fn verifies(&self) -> bool
        ensures { MatchBool result (self.now.mode ≡ Verify) (self.now.mode ≡ Verify → ⊥) }
    {
        matches!(self.mode, Mode::Verify)
    }
}
