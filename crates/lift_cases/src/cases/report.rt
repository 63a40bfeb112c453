//! Cases, tried one after another.
use crate::cases::came::Came;
use crate::figures::Figures;
use lift_building::Building;
use std::alloc::{AllocError, Global};
use std::fmt::Write;

/// What is told of the cases: a line for each, and the counts.
#[derive(Drop)]
pub(crate) struct Report {
    alloc: Global,
    text: String,
    cases: u32,
    answers: u32,
    wrong: u32,
}

impl Report {
    pub(crate) fn new(alloc: Global) -> Report {
        Report {
            alloc,
            text: String::new(alloc),
            cases: 0,
            answers: 0,
            wrong: 0,
        }
    }

    /// Tries the cases of a text, each of which begins with a line `case NAME`. None where memory is
    /// refused.
    pub(crate) fn try_cases(&mut self, building: &Building, text: &str) -> Option<()> {
        for case in text.split("\ncase ").skip(1) {
            self.try_case(building, case)?;
        }
        Some(())
    }

    fn try_case(&mut self, building: &Building, case: &str) -> Option<()> {
        let (name, lines) = case.split_once('\n').unwrap_or((case, ""));
        let wrong = self.wrong;
        self.try_lines(name, lines, &mut Figures::new(self.alloc, building))?;
        self.cases = self.cases.saturating_add(1);
        if self.wrong == wrong {
            writeln!(self.text, "ok {name}").ok()?;
        }
        Some(())
    }

    fn try_lines(&mut self, name: &str, lines: &str, figures: &mut Figures) -> Option<()> {
        for line in lines.lines() {
            let line = without_comment(line);
            if !line.is_empty() {
                self.try_line(name, line, figures)?;
            }
        }
        Some(())
    }

    /// A line that does something, or one that asks something, with ` = ` and the answer that is
    /// wanted.
    fn try_line(&mut self, name: &str, line: &str, figures: &mut Figures) -> Option<()> {
        let (said, wanted) = line.split_once(" = ").unwrap_or((line, ""));
        let (said, wanted) = (said.trim(), wanted.trim());
        let came = answer_of(self.alloc, said, figures)?;
        let came = came.text()?;
        if !wanted.is_empty() {
            self.answers = self.answers.saturating_add(1);
        }
        if came == wanted {
            return Some(());
        }
        self.wrong = self.wrong.saturating_add(1);
        let text = &mut self.text;
        writeln!(text, "WRONG {name}: {said}: wanted {wanted}, came {came}").ok()
    }

    /// Whether no case was tried.
    pub(crate) fn is_empty(&self) -> bool {
        self.cases == 0
    }

    /// Ends the report with its counts. Whether all cases came out.
    pub(crate) fn end(&mut self) -> Result<bool, AllocError> {
        let (cases, answers, wrong) = (self.cases, self.answers, self.wrong);
        writeln!(self.text, "{cases} cases, {answers} answers, {wrong} wrong")?;
        Ok(wrong == 0)
    }

    pub(crate) fn text(&self) -> &str {
        &self.text
    }
}

/// What a line comes to. None where memory is refused.
fn answer_of(alloc: Global, said: &str, figures: &mut Figures) -> Option<Came> {
    let words: Vec<&str> = said.split_whitespace().collect(alloc).ok()?;
    let mut came = Came::new(alloc);
    if figures.answer(&words, &mut came).is_none() {
        came.word("not understood");
    }
    Some(came)
}

/// The line without what stands after a `#`, and without the spaces round it.
fn without_comment(line: &str) -> &str {
    match line.split_once('#') {
        Some((front, _comment)) => front.trim(),
        None => line.trim(),
    }
}
