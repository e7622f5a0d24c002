// What came up in the trials.
use crate::answers::Answer;
use second_checker::answers::Said;
use std::alloc::{AllocError, Global};
use std::collections::BTreeMap;
use std::fmt::Display;
use std::io;
use std::num::Saturating;

// How many disagreements are printed.
const MOST_REPORTS: usize = 20;

// The numbers that must come up.
const NUMBERS: [u8; 29] = [
    1, 2, 3, 4, 5, 6, 7, 8, 9, 10, 11, 12, 13, 14, 15, 16, 31, 32, 41, 42, 43, 44, 45, 51, 52, 53,
    54, 55, 56,
];

#[derive(Drop)]
pub struct Tally {
    pub runs: Saturating<usize>,
    pub calls: Saturating<usize>,
    pub lines: Saturating<usize>,
    pub grammars: Saturating<usize>,
    pub trees: Saturating<usize>,
    pub fewest_free: usize,
    accepted: Saturating<usize>,
    refusals: BTreeMap<u8, Saturating<usize>>,
    disagreements: Saturating<usize>,
    reports: Vec<String>,
    reported: Option<(u64, Saturating<usize>)>,
    seed: u64,
    call: Saturating<usize>,
}

impl Tally {
    pub(crate) fn new(heap: Global) -> Result<Tally, AllocError> {
        let none = Saturating(0);
        let mut refusals = BTreeMap::new(heap);
        for number in NUMBERS {
            let _ = refusals.insert(number, none)?;
        }
        Ok(Tally {
            runs: none,
            calls: none,
            lines: none,
            grammars: none,
            trees: none,
            fewest_free: usize::MAX,
            accepted: none,
            refusals,
            disagreements: none,
            reports: Vec::new(heap),
            reported: None,
            seed: 0,
            call: none,
        })
    }

    pub(crate) fn count(&mut self, number: u8) {
        if let Some(count) = self.refusals.get_mut(&number) {
            *count += 1;
        }
    }

    pub(crate) fn hear(&mut self, answer: Answer) {
        match answer.0 {
            Ok(Said::Loaded(_)) => self.accepted += 1,
            Ok(_) => {}
            Err(refusal) => {
                self.count(refusal.number);
                if let Some(fault) = refusal.fault {
                    self.count(fault.number);
                }
            }
        }
    }

    pub(crate) fn begin_run(&mut self, seed: u64) {
        self.runs += 1;
        self.seed = seed;
        self.call = Saturating(0);
    }

    pub(crate) fn begin_call(&mut self) {
        self.calls += 1;
        self.call += 1;
    }

    pub(crate) fn compare<T: PartialEq + Display>(
        &mut self,
        heap: Global,
        what: &str,
        product: &T,
        second: &T,
    ) -> Result<(), AllocError> {
        if product != second {
            let product = product.to_string(heap)?;
            let second = second.to_string(heap)?;
            self.disagree(heap, what, product.as_str(), second.as_str())?;
        }
        Ok(())
    }

    // Notes that the two differ at the call that was begun last, or behind it. Of a run only the first such call is reported, since
    // behind it the two memories may hold other texts.
    pub(crate) fn disagree(
        &mut self,
        heap: Global,
        what: &str,
        product: &str,
        second: &str,
    ) -> Result<(), AllocError> {
        self.disagreements += 1;
        let seed = self.seed;
        let call = self.call;
        let first = match self.reported {
            Some((run, place)) => run != seed || place == call,
            None => true,
        };
        if first && self.reports.len() < MOST_REPORTS {
            self.reported = Some((seed, call));
            let report = format!(in heap;
                "run {seed} call {call} {what}: product: {product}, second: {second}"
            )?;
            self.reports.push(report)?;
        }
        Ok(())
    }

    pub(crate) fn print(&self, rt: &HostRuntime) -> io::Result<()> {
        let runs = self.runs;
        let calls = self.calls;
        let lines = self.lines;
        let grammars = self.grammars;
        let trees = self.trees;
        let fewest_free = self.fewest_free;
        let accepted = self.accepted;
        println!(rt; "runs: {runs}")?;
        println!(rt; "calls: {calls}")?;
        println!(rt; "lines of cueline: {lines}")?;
        println!(rt; "grammars: {grammars}")?;
        println!(rt; "trees: {trees}")?;
        println!(rt; "fewest free blocks: {fewest_free}")?;
        println!(rt; "accepted loads: {accepted}")?;
        let all = self.print_refusals(rt)?;
        for report in self.reports.iter() {
            println!(rt; "{report}")?;
        }
        let disagreements = self.disagreements;
        println!(rt; "disagreements: {disagreements}")?;
        let all = if all { "yes" } else { "no" };
        println!(rt; "every refusal came up: {all}")
    }

    // A line for each number, and whether all of them came up.
    fn print_refusals(&self, rt: &HostRuntime) -> io::Result<bool> {
        for (number, times) in self.refusals.iter() {
            println!(rt; "refusal {number}: {times}")?;
        }
        Ok(self.refusals.values().all(|times| times.0 > 0))
    }
}
