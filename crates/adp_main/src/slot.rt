//! A word of a group, which is solved and told on one thread.
ghost use Rattle.std.specs.Prelude.{◌≡◌, ℕ, IfOk, IfSome, None};
ghost use Rattle.std.specs.Option.{option_copied};
ghost use Rattle.adp_model.specs.PosedProblem.{PosedProblem};
ghost use Rattle.evaluators.specs.Runs.{IsFinished};
ghost use Rattle.verdicts.specs.Certificates.{IsBlockReport};
ghost use Rattle.verdicts.specs.declared.command.Mode.TheVariants.{Lex, Serial};
ghost use Rattle.verdicts.specs.Verdict.{IsReportWith};
ghost use Rattle.adp_main.specs.Groups.{IsEvaluated, IsPosted, IsSolvedFor, IsTold, post_of};
ghost use Rattle.adp_main.specs.RunNotes.{IsRunFor};

use crate::cert::block_report;
use crate::evaluating::{plain_report, run_alone};
use crate::lex::{Compiled, report_of_both};
use crate::serial::swept_report;
use evaluators::{Door, Finished, Gate, NotedRun, Way};
use split_lines::Sharing;
use std::alloc::{AllocError, Global};
use verdicts::{Command, Mode};
use word_groups::Fill;

/// What is told of a word: its report, and the note of the run where evaluators solved it.
#[derive(Drop)]
pub(crate) struct Told {
    pub(crate) report: Vec<u8>,
    pub(crate) note: Option<NotedRun>,
}

/// A word of a group, with what its problem shares with the others, and what is told of it: nothing before it is solved,
/// and where there was no memory.
#[derive(Drop)]
pub(crate) struct Slot<'a, 'g, G> {
    pub(crate) alloc: Global,
    pub(crate) command: &'a Command<'a>,
    pub(crate) made: Option<&'a Compiled>,
    pub(crate) number: u32,
    pub(crate) sharing: Sharing<'a>,
    pub(crate) gate: &'g G,
    pub(crate) told: Option<Told>,
}

impl<'a, 'g, G: Gate> Fill for Slot<'a, 'g, G> {
    ghost use Rattle.std.specs.Prelude.{IfSome};
    ghost use Rattle.adp_main.specs.Groups.{Post, IsPosted, IsTold, post_of};

    ghost Asked = { Post };

    ghost asked = { post_of };

    ghost is_ready = { λ slot. IsPosted (post_of slot) };

    ghost is_filled = { λ slot. IfSome slot.told (IsTold (post_of slot)) };

    fn fill(&mut self) {
        let way = Way { gate: self.gate };
        self.told = self.tell(&way).ok();
    }
}

impl<'a, 'g, G> Slot<'a, 'g, G> {
    /// What is told of the word, which is solved here. Nothing else is left of what solved it.
    fn tell<D: Door>(&self, door: &D) -> Result<Told, AllocError>
        requires { IsPosted (post_of self.now) }
        ensures { IfOk result (IsTold (post_of self.now)) }
    {
        let command = self.command;
        match command.mode {
            Mode::Serial => self.sweep(),
            _ => self.evaluate(door),
        }
    }

    /// What is told of the word, by one sweep.
    fn sweep(&self) -> Result<Told, AllocError>
        requires posted { IsPosted (post_of self.now) }
        requires mode { (post_of self.now).command.mode ≡ Serial }
        ensures { IfOk result (IsTold (post_of self.now)) }
    {
        let problem = self.sharing.problem();
        let prepared = self.sharing.prepared(self.alloc)?;
        let report = swept_report(self.alloc, self.number, problem, prepared)?;
        Ok(Told { report, note: None })
    }

    /// What is told of the word, by evaluators that run one after the other.
    fn evaluate<D: Door>(&self, door: &D) -> Result<Told, AllocError>
        requires posted { IsPosted (post_of self.now) }
        requires mode { (post_of self.now).command.mode ≡ Serial → ⊥ }
        ensures { IfOk result (IsTold (post_of self.now)) }
    {
        let command = self.command;
        let problem = self.sharing.problem();
        let prepared = self.sharing.prepared(self.alloc)?;
        let finished = run_alone(self.alloc, command, prepared, door)?;
        let report = report_of(
            self.alloc,
            command,
            self.number,
            self.made,
            &self.sharing,
            &finished,
        )?;
        let note = finished.note(self.alloc, problem, command.seed)?;
        Ok(Told {
            report,
            note: Some(note),
        })
    }
}

/// The report of a word that evaluators solved.
fn report_of(
    alloc: Global,
    command: &Command<'_>,
    number: u32,
    made: Option<&Compiled>,
    sharing: &Sharing<'_>,
    finished: &Finished<'_>,
) -> Result<Vec<u8>, AllocError>
    requires mode { IsEvaluated command.now.mode }
    requires asked { (asked : PosedProblem) × IsSolvedFor command.now (option_copied made) asked sharing.now }
    requires run { IsRunFor command.now sharing.now finished.now }
    ensures { IfOk result (λ report. (asked : PosedProblem)
        → IsSolvedFor command.now (option_copied made.entry) asked sharing.now
        → IsReportWith command.now.mode command.now None number asked finished.now.wins.items report.items) }
{
    match made {
        Some(made) => report_of_both(alloc, number, made, sharing.problem(), finished),
        None => own_report(alloc, command, number, sharing, finished),
    }
}

/// The report of a word that evaluators solved under its own algebra.
fn own_report(
    alloc: Global,
    command: &Command<'_>,
    number: u32,
    sharing: &Sharing<'_>,
    finished: &Finished<'_>,
) -> Result<Vec<u8>, AllocError>
    requires mode { IsEvaluated command.now.mode }
    requires single { command.now.mode ≡ Lex → ⊥ }
    requires run { IsRunFor command.now sharing.now finished.now }
    ensures { IfOk result (λ report. IsReportWith command.now.mode command.now None number sharing.now
        finished.now.wins.items report.items) }
{
    if command.certifies() {
        certified_report(alloc, number, sharing, finished)
    } else {
        plain_report(alloc, number, sharing.problem(), finished)
    }
}

/// The block of a word that evaluators solved.
fn certified_report(
    alloc: Global,
    number: u32,
    sharing: &Sharing<'_>,
    finished: &Finished<'_>,
) -> Result<Vec<u8>, AllocError>
    requires { (seed : ℕ) × IsFinished sharing.now seed finished.now }
    ensures { IfOk result (λ report. IsBlockReport number sharing.now report.items) }
{
    let prepared = sharing.prepared(alloc)?;
    let layout = prepared.layout();
    block_report(alloc, number, layout, finished)
}
