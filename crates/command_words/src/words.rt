ghost use Rattle.std.specs.Prelude.{◌≡◌, ◌↔◌, ◌<◌, ◌^◌, ℕ, map, IsOk, IfOk, IsTrue, OnErr, SomeIff};
ghost use Rattle.std.specs.String.{string_bytes};
ghost use Rattle.std.specs.Str.Parse.{IsNumeral, digits_value};
ghost use Rattle.verdicts.specs.declared.command.Mode.{Mode as AnyMode};
ghost use Rattle.verdicts.specs.Command.{HasCommand, IsCommand, Setting, mode_word};
ghost use Rattle.command_words.specs.OptionValues.{OptionValues};
ghost use Rattle.command_words.specs.Settings.{Adds, AddsAlgebra, AddsSchedule, AddsSecond, AddsSeed, AddsSize, AddsTrees, AddsWorkers, Suits};

use crate::schedule::is_schedule;
use adp_model::is_name;
use std::marker::Model;
use verdicts::laws::command_is_unique;
use verdicts::{Command, Mode};

/// The most workers.
const MOST_WORKERS: u64 = 32;

/// The most first trees of a word.
const MOST_TREES: u64 = 64;

/// The greatest size of a word that is made.
const GREATEST_SIZE: u64 = 2046;

/// The words are of no form that a command has.
#[derive(Clone, Copy, Debug, PartialEq, Eq)]
pub struct Usage;

/// Reads the words after the program's name: a mode, and then options in any order, each at most once, with its value
/// in the next word. Takes no memory.
pub fn read_words<'w>(words: &'w [String]) -> Result<Command<'w>, Usage>
    ensures taken { IsOk result ↔ HasCommand (map string_bytes words.now) }
    ensures command { IfOk result (IsCommand (map string_bytes words.now)) }
{
    command_is_unique();
    // A mode, and two words for each option.
    if words.len() % 2 == 0 {
        return Err(Usage);
    }
    let mode = read_mode(words[0].as_str())?;
    let mut set = Settings {
        algebra: None,
        second: None,
        workers: None,
        seed: None,
        schedule: None,
        best: None,
        size: None,
    };
    let mut place = words.len();
    while place > 1 {
        place -= 2;
        set = set.add(words[place].as_str(), words[place + 1].as_str())?;
    }
    if !set.suits(mode) {
        return Err(Usage);
    }
    Ok(Command {
        mode,
        algebra: set.algebra,
        second: set.second,
        workers: set.workers.unwrap_or(1),
        seed: set.seed.unwrap_or(0),
        schedule: set.schedule,
        best: set.best.unwrap_or(0),
        size: set.size.unwrap_or(0),
    })
}

fn read_mode(word: &str) -> Result<Mode, Usage>
    ensures known { IfOk result (λ mode. word.now ≡ mode_word mode) }
    ensures unknown { OnErr result ((mode : AnyMode) → word.now ≡ mode_word mode → ⊥) }
{
    match word {
        "best" => Ok(Mode::Best),
        "serial" => Ok(Mode::Serial),
        "wins" => Ok(Mode::Wins),
        "replay" => Ok(Mode::Replay),
        "lex" => Ok(Mode::Lex),
        "cert" => Ok(Mode::Cert),
        "verify" => Ok(Mode::Verify),
        "kbest" => Ok(Mode::KBest),
        "big" => Ok(Mode::Big),
        _ => Err(Usage),
    }
}

/// The values of the options that are set.
#[derive(Drop)]
struct Settings<'w> {
    algebra: Option<&'w str>,
    second: Option<&'w str>,
    workers: Option<u32>,
    seed: Option<u64>,
    schedule: Option<&'w str>,
    best: Option<u32>,
    size: Option<u32>,
}

impl<'w> Model for Settings<'w> {
    ghost use Rattle.command_words.specs.OptionValues.{OptionValues, values_of};

    ghost Value = { OptionValues };

    ghost view = { values_of };
}

impl<'w> Settings<'w> {
    /// One more option with its value. It is an error where the option is set already.
    fn add(self, option: &str, value: &'w str) -> Result<Settings<'w>, Usage>
        ensures added { IfOk result (λ after. (setting : Setting)
            × Adds self.entry option.now value.now setting after) }
        ensures refused { OnErr result ((setting : Setting) (after : OptionValues)
            → Adds self.entry option.now value.now setting after → ⊥) }
    {
        match option {
            "--algebra" => self.add_algebra(value),
            "--then" => self.add_second(value),
            "--workers" => self.add_workers(value),
            "--seed" => self.add_seed(value),
            "--schedule" => self.add_schedule(value),
            "--best" => self.add_best(value),
            "--size" => self.add_size(value),
            _ => Err(Usage),
        }
    }

    fn add_algebra(self, value: &'w str) -> Result<Settings<'w>, Usage>
        ensures added { IfOk result (λ after. AddsAlgebra self.entry value.now after) }
        ensures refused { OnErr result ((after : OptionValues) → AddsAlgebra self.entry value.now after → ⊥) }
    {
        if self.algebra.is_some() || !is_name(value.as_bytes()) {
            return Err(Usage);
        }
        Ok(Settings {
            algebra: Some(value),
            ..self
        })
    }

    fn add_second(self, value: &'w str) -> Result<Settings<'w>, Usage>
        ensures added { IfOk result (λ after. AddsSecond self.entry value.now after) }
        ensures refused { OnErr result ((after : OptionValues) → AddsSecond self.entry value.now after → ⊥) }
    {
        if self.second.is_some() || !is_name(value.as_bytes()) {
            return Err(Usage);
        }
        Ok(Settings {
            second: Some(value),
            ..self
        })
    }

    fn add_workers(self, value: &'w str) -> Result<Settings<'w>, Usage>
        ensures added { IfOk result (λ after. (workers : ℕ) × AddsWorkers self.entry value.now workers after) }
        ensures refused { OnErr result ((workers : ℕ) (after : OptionValues)
            → AddsWorkers self.entry value.now workers after → ⊥) }
    {
        match number(value) {
            Some(workers @ 1..=MOST_WORKERS) if self.workers.is_none() => Ok(Settings {
                workers: Some(workers as u32),
                ..self
            }),
            _ => Err(Usage),
        }
    }

    fn add_seed(self, value: &'w str) -> Result<Settings<'w>, Usage>
        ensures added { IfOk result (λ after. (seed : ℕ) × AddsSeed self.entry value.now seed after) }
        ensures refused { OnErr result ((seed : ℕ) (after : OptionValues)
            → AddsSeed self.entry value.now seed after → ⊥) }
    {
        match number(value) {
            Some(seed) if self.seed.is_none() => Ok(Settings {
                seed: Some(seed),
                ..self
            }),
            _ => Err(Usage),
        }
    }

    fn add_schedule(self, value: &'w str) -> Result<Settings<'w>, Usage>
        ensures added { IfOk result (λ after. AddsSchedule self.entry value.now after) }
        ensures refused { OnErr result ((after : OptionValues) → AddsSchedule self.entry value.now after → ⊥) }
    {
        if self.schedule.is_some() || !is_schedule(value) {
            return Err(Usage);
        }
        Ok(Settings {
            schedule: Some(value),
            ..self
        })
    }

    fn add_best(self, value: &'w str) -> Result<Settings<'w>, Usage>
        ensures added { IfOk result (λ after. (best : ℕ) × AddsTrees self.entry value.now best after) }
        ensures refused { OnErr result ((best : ℕ) (after : OptionValues)
            → AddsTrees self.entry value.now best after → ⊥) }
    {
        match number(value) {
            Some(best @ 1..=MOST_TREES) if self.best.is_none() => Ok(Settings {
                best: Some(best as u32),
                ..self
            }),
            _ => Err(Usage),
        }
    }

    fn add_size(self, value: &'w str) -> Result<Settings<'w>, Usage>
        ensures added { IfOk result (λ after. (size : ℕ) × AddsSize self.entry value.now size after) }
        ensures refused { OnErr result ((size : ℕ) (after : OptionValues)
            → AddsSize self.entry value.now size after → ⊥) }
    {
        match number(value) {
            Some(size @ 1..=GREATEST_SIZE) if self.size.is_none() => Ok(Settings {
                size: Some(size as u32),
                ..self
            }),
            _ => Err(Usage),
        }
    }

    /// Whether the mode allows the options that are set, and those that it needs are among them.
    fn suits(&self, mode: Mode) -> bool
        ensures { IsTrue result ↔ Suits mode self.now }
    {
        match mode {
            Mode::Best | Mode::Serial | Mode::Wins | Mode::Cert => {
                self.second.is_none()
                    && self.schedule.is_none()
                    && self.best.is_none()
                    && self.size.is_none()
            }
            Mode::Replay => {
                self.second.is_none()
                    && self.schedule.is_some()
                    && self.best.is_none()
                    && self.size.is_none()
            }
            Mode::Lex => {
                self.second.is_some()
                    && self.schedule.is_none()
                    && self.best.is_none()
                    && self.size.is_none()
            }
            Mode::Verify => {
                self.second.is_none()
                    && self.workers.is_none()
                    && self.seed.is_none()
                    && self.schedule.is_none()
                    && self.best.is_none()
                    && self.size.is_none()
            }
            Mode::KBest => {
                self.second.is_none()
                    && self.workers.is_none()
                    && self.seed.is_none()
                    && self.schedule.is_none()
                    && self.best.is_some()
                    && self.size.is_none()
            }
            Mode::Big => {
                self.algebra.is_none()
                    && self.second.is_none()
                    && self.schedule.is_none()
                    && self.best.is_none()
                    && self.size.is_some()
            }
        }
    }
}

/// The number that the digits of a word write, without a sign.
fn number(word: &str) -> Option<u64>
    ensures { SomeIff result (IsNumeral 10 word.now × (digits_value 10 word.now < 2 ^ 64)) (digits_value 10 word.now) }
{
    match word.as_bytes().first() {
        Some(b'+') => None,
        _ => word.parse::<u64>().ok(),
    }
}
