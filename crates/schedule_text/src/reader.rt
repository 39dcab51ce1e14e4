ghost use Rattle.std.specs.Prelude.{◌≡◌, ◌≢◌, ◌+◌, ◌≤◌, ◌↔◌, false, true, []};
ghost use Rattle.std.specs.Prelude.{Some, None, Err, IsNone, IsSome, IsTrue, IfOk, OnOk, OnErr};
ghost use Rattle.nop_types.specs.declared.limits.TheConstants.{MAX_LINES};
ghost use Rattle.nop_types.specs.Headers.{gives};
ghost use Rattle.outside.specs.Causes.{CountsFor};
ghost use Rattle.schedule_text.specs.Reading.{opening, lines_before, lines_taken, Reads, TakesOf};
ghost use Rattle.schedule_text.specs.Reading.{LeavesNone, form_of, config_of, HasConfig};
ghost use Rattle.schedule_text.specs.Rules.{rule_number};
ghost use Rattle.schedule_text.specs.Stepping.{after_step, Answers, IsFirst, NeedsNoRead, Reaches};
ghost use Rattle.schedule_text.specs.Stepping.{TakesFrom};

use crate::line_error::LineError;
use crate::rule::Rule;
use crate::rules::{event, header};
use crate::{Event, NextError};
use line_reader::{FirstLine, LineReader, ReadError};
use nop_types::{Config, Header, MAX_LINES};
use outside::Source;
use std::alloc::Global;
use std::marker::Model;

/// Reads the events of a schedule, line by line. It asks a source for pieces of at most 4,096
/// bytes, and only while no further line is decided: a line is decided by its end, by a byte more
/// than a line or a line more than a schedule may have, or by the end of the source.
#[derive(Drop)]
pub struct Reader {
    alloc: Global,
    lines: LineReader,
    header: Option<Header>,
}

impl Model for Reader {
    ghost use Rattle.schedule_text.specs.Reading.{Reading};
    ghost use Rattle.schedule_text.specs.Rules.{rule_number};
    ghost use Rattle.schedule_text.specs.Stepping.{IsReader, reading};

    ghost Value = { Reading };

    ghost view = { λ r. reading r.header r.lines };

    ghost invariant = { λ r. IsReader r.lines r.header };
}

impl Reader {
    /// A reader that took nothing. It takes no memory.
    pub fn new(alloc: Global) -> Reader
        ensures { result ≡ opening }
    {
        Reader {
            alloc,
            lines: LineReader::new(alloc, MAX_LINES),
            header: None,
        }
    }

    /// What line 1 says, None until it was taken.
    pub fn config(&self) -> Option<Config>
        ensures value { result ≡ config_of self.now.header }
        ensures none { IsNone result ↔ (self.now.line ≡ 0) }
    {
        match self.header {
            Some(header) => Some(header.config),
            None => None,
        }
    }

    /// The form of line 1, 0 until it was taken.
    pub fn form(&self) -> u8
        ensures { result ≡ form_of self.now.header }
    {
        match self.header {
            Some(header) => header.form,
            None => 0,
        }
    }

    /// The number of lines taken.
    pub fn line(&self) -> u32
        ensures value { result ≡ self.now.line }
        ensures most { result ≤ MAX_LINES }
    {
        self.lines.line()
    }

    /// Whether the next line or the end of the source is there already: for line 1 exactly where `open` does not ask its source,
    /// and behind it exactly where `next` does not.
    pub fn has_line(&self) -> bool
        ensures { IsTrue result ↔ NeedsNoRead self.now }
    {
        self.lines.has_line()
    }

    /// The event of the next line, None at the end of the source. A line that breaks a rule is not
    /// taken. After ReadFault and NoMemory nothing that was taken is lost, and the next call goes
    /// on.
    pub fn next<S: Source>(&mut self, source: &mut S) -> Result<Option<Event>, NextError>
        ensures takes { TakesOf self.old self.new (S.left source.old) (S.left source.new) result }
        ensures reads { Reads self.old self.new result }
        ensures none_left { LeavesNone self.new result }
        ensures count { CountsFor (S.fault_count source.old) (S.fault_count source.new)
            NextError.ReadFault result }
        ensures header { IsSome self.old.header → self.new.header ≡ self.old.header }
        ensures line { IsSome self.old.header → self.new.line
            ≡ self.old.line + lines_taken result }

        // The source is not asked after its end, nor where a line behind line 1 is decided.
        ensures after_end { self.old.ended ≡ true → source.new ≡ source.old }
        ensures unread { IsSome self.old.header → lines_before self.old false [] ≢
            [] → source.new
            ≡ source.old }
    {
        let config = self.open(source)?;
        match self.reach_line(source)? {
            None => Ok(None),
            Some(first) => self.take_event(config, first),
        }
    }

    /// What line 1 says; takes it if it was not taken.
    pub fn open<S: Source>(&mut self, source: &mut S) -> Result<Config, NextError>
        ensures config { IfOk result (HasConfig self.new.header) }
        ensures form { IfOk result (λ c. IsTrue (gives (form_of self.new.header) c)) }
        ensures line { OnOk result ((1 ≤ self.new.line) × (self.new.line ≤ MAX_LINES)) }
        ensures closed { OnErr result (self.new.header ≡ self.old.header) }
        ensures takes { TakesOf self.old self.new (S.left source.old) (S.left source.new)
            (after_step result) }
        ensures reads { Reads self.old self.new (after_step result) }
        ensures none_left { LeavesNone self.new (after_step result) }
        ensures count { CountsFor (S.fault_count source.old) (S.fault_count source.new)
            NextError.ReadFault result }
        ensures after_end { self.old.ended ≡ true → (source.new ≡ source.old)
            × (self.new.ended ≡ true) }
        ensures unread { IsSome self.old.header → (source.new ≡ source.old)
            × (self.new ≡ self.old) }
        ensures unread_first { NeedsNoRead self.old → source.new ≡ source.old }
    {
        if let Some(header) = self.header {
            return Ok(header.config);
        }
        self.read_header(source)
    }

    /// Takes line 1.
    #[cold]
    fn read_header<S: Source>(&mut self, source: &mut S) -> Result<Config, NextError>
        requires { self.old.header ≡ None }
        ensures config { IfOk result (HasConfig self.new.header) }
        ensures form { IfOk result (λ c. IsTrue (gives (form_of self.new.header) c)) }
        ensures line { OnOk result ((1 ≤ self.new.line) × (self.new.line ≤ MAX_LINES)) }
        ensures closed { OnErr result (self.new.header ≡ self.old.header) }
        ensures takes { TakesFrom self.old self.new (S.left source.old) (S.left source.new)
            (after_step result) }
        ensures none_left { LeavesNone self.new (after_step result) }
        ensures count { CountsFor (S.fault_count source.old) (S.fault_count source.new)
            NextError.ReadFault result }
        ensures after_end { self.old.ended ≡ true → (source.new ≡ source.old)
            × (self.new.ended ≡ true) }
        ensures unread { NeedsNoRead self.old → source.new ≡ source.old }
    {
        match self.reach_line(source)? {
            // no bytes, so no word
            None => Err(self.bad_line(Rule::WrongWord)),
            Some(first) => self.take_header(first),
        }
    }

    /// Reads until the first line is decided; None at the end of the source.
    fn reach_line<S: Source>(&mut self, source: &mut S) -> Result<Option<FirstLine>, NextError>
        ensures first { IfOk result (Reaches self.new) }
        ensures header { self.new.header ≡ self.old.header }
        ensures line { self.new.line ≡ self.old.line }
        ensures takes { TakesFrom self.old self.new (S.left source.old) (S.left source.new)
            (after_step result) }
        ensures none_left { LeavesNone self.new (after_step result) }
        ensures count { CountsFor (S.fault_count source.old) (S.fault_count source.new)
            NextError.ReadFault result }
        ensures unread { NeedsNoRead self.old → (source.new ≡ source.old)
            × (self.new ≡ self.old) }
    {
        match self.lines.next_line(source) {
            Ok(first) => Ok(first),
            Err(ReadError::ReadFault) => Err(NextError::ReadFault),
            Err(ReadError::NoMemory) => Err(NextError::NoMemory),
        }
    }

    fn take_header(&mut self, first: FirstLine) -> Result<Config, NextError>
        requires first { IsFirst self.old first }
        requires none { self.old.header ≡ None }
        ensures config { IfOk result (HasConfig self.new.header) }
        ensures form { IfOk result (λ c. IsTrue (gives (form_of self.new.header) c)) }
        ensures line { OnOk result (self.new.line ≡ 1) }
        ensures kept { OnErr result (self.new ≡ self.old) }
        ensures answers { Answers self.old self.new (after_step result) }
        ensures no_fault { result ≢ Err NextError.ReadFault }
    {
        match header(self.lines.text(first)) {
            Ok(header) => {
                let config = header.config;
                self.lines.take(first);
                self.header = Some(header);
                Ok(config)
            }
            Err(rule) => Err(self.bad_line(rule)),
        }
    }

    fn take_event(&mut self, config: Config, first: FirstLine) -> Result<Option<Event>, NextError>
        requires first { IsFirst self.old first }
        requires config { HasConfig self.old.header config }
        ensures answers { Answers self.old self.new result }
        ensures header { self.new.header ≡ self.old.header }
        ensures line { self.new.line ≡ self.old.line + lines_taken result }
        ensures no_fault { result ≢ Err NextError.ReadFault }
    {
        let before = self.lines.line();
        match event(self.alloc, config, before, self.lines.text(first)) {
            Ok(event) => {
                self.lines.take(first);
                Ok(Some(event))
            }
            Err(LineError::Breaks(rule)) => Err(self.bad_line(rule)),
            Err(LineError::NoMemory) => Err(NextError::NoMemory),
        }
    }

    /// The next line breaks the rule.
    fn bad_line(&self, rule: Rule) -> NextError
        ensures { result ≡ NextError.BadLine (self.now.line + 1) (rule_number rule) }
    {
        NextError::BadLine {
            line: self.lines.line() + 1,
            rule: rule.number(),
        }
    }
}
