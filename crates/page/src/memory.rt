//! What a page's users lend, and a command on all of it.
ghost use Rattle.std.specs.Prelude.{◌≡◌, ◌<◌, ◌≤◌, ◌-◌, ◌%◌, eqb, length, true, IfOk, IfSome, IfNone};
ghost use Rattle.protocol.specs.Command.{command, decode};
ghost use Rattle.protocol.specs.Form.{form_of};
ghost use Rattle.protocol.specs.declared.Command.TheVariants.{WriterStep, ReaderStep};
ghost use Rattle.checks.specs.Seen.{shape};
ghost use Rattle.checks.specs.Start.{ended};
ghost use Rattle.codec.specs.Entry.{added};
ghost use Rattle.page.specs.Reads.{ReadReady};
ghost use Rattle.page.specs.Pen.{Knows};
ghost use Rattle.page.specs.Carry.{reader_at, after_read, carry_at, Ready, after, carry_lent};
ghost use Rattle.page.specs.Calls.{ran_lent, ran_as, run_lent, start_lent};
ghost use Rattle.page.specs.Runs.{acted, act_lent, ReadOn, WentOn};
ghost use Rattle.page.specs.Loans.{SameLoans, lent_in};

use crate::pen::Pen;
use crate::{begins, reading};
use checks::Form;
use codec::{Commands, Log};
use protocol::{Command, Format, Outcome, Reader, Refusal, Writer};

/// The page, the states of its readers, and a buffer of a record for each.
#[derive(Drop)]
pub struct Memory<'a> {
    pub page: &'a mut [u8],
    pub readers: &'a mut [Reader],
    pub buffers: &'a mut [u8],
}

// The reader of a step, if one is next, and the bytes after it.
#[tactic(auto, unfolding(protocol::specs::Command::decode))]
#[inline(always)]
fn reader_step(bytes: &[u8]) -> Option<(u8, &[u8])>
    ensures { IfSome result (λ found. decode bytes.now ≡ command (ReaderStep found.0) found.1.now) }
{
    match bytes {
        [6, who, rest @ ..] => Some((*who, rest)),
        _ => None,
    }
}

// The bytes after a step of the writer, if one is next.
#[tactic(auto, unfolding(protocol::specs::Command::decode))]
#[inline(always)]
fn writer_step(bytes: &[u8]) -> Option<&[u8]>
    ensures { IfSome result (λ rest. decode bytes.now ≡ command WriterStep rest.now) }
{
    match bytes {
        [3, rest @ ..] => Some(rest),
        _ => None,
    }
}

// Form, pen, records, command and log have lives of their own, so no struct holds them. That a pen knows the digits of a form
// (`Knows`), and that a form allows what is lent (`Ready`), is asked in each act: no one type holds both.
impl Memory<'_> {
    // Refusals 1 to 3, and else the form of the page.
    pub(crate) fn start<'b>(
        &self,
        format: Format,
        bases: &'b [u16],
        writer: Writer,
        records: &[u8],
    ) -> Result<Form<'b>, Refusal>
        ensures start { ended result ≡ start_lent (form_of bases.now format) records.now
            (lent_in self.now writer) }
        ensures same { IfOk result (λ form. shape form ≡ form_of bases.now format) }
        ensures ready { IfOk result (λ form. Ready (shape form) records.now
            (lent_in self.now writer)) }
        ensures whole { IfOk result (λ form. eqb (length records.now % form.format.n) 0 ≡ true) }
    {
        let form = Form::new(format, bases)?;
        states::start_with(
            form,
            self.readers,
            self.page,
            writer,
            self.buffers.len(),
            records,
        )?;
        Ok(form)
    }

    // A step of reader `i`: what it ends in, if the log has room for its entry.
    #[inline(always)]
    fn step(&mut self, form: Form<'_>, i: usize, room: usize) -> Result<Outcome, Refusal>
        requires there { i < length self.old.readers.now }
        requires ready { ReadReady (shape form) self.old.page.now (reader_at self.old.readers.now i)
            self.old.buffers.now i (ReaderStep i) }
        ensures step { after_read result self.new.readers.now self.new.buffers.now
            ≡ carry_at (shape form.entry) self.old.page.now i room self.old.readers.now self.old.buffers.now (ReaderStep i) }
        ensures page { self.new.page.now ≡ self.old.page.now }
        ensures loans { SameLoans self.old self.new }
    {
        let n = form.format.n;
        // The stage alone: of a whole state the digits would be copied.
        let stage = self.readers[i].stage;
        let digit = self.page[reading::position(stage, form)];
        reading::step(
            &mut self.readers[i],
            form,
            // The number that the command named: there are sixteen readers at most.
            i as u8,
            &mut self.buffers[i * n..i * n + n],
            digit,
            room,
        )
    }

    // One command of reader `i`. A refusal changes nothing.
    #[inline(always)]
    fn carry(
        &mut self,
        form: Form<'_>,
        i: usize,
        command: Command,
        room: usize,
    ) -> Result<Outcome, Refusal>
        requires there { i < length self.old.readers.now }
        requires ready { ReadReady (shape form) self.old.page.now (reader_at self.old.readers.now i)
            self.old.buffers.now i command }
        ensures carried { after_read result self.new.readers.now self.new.buffers.now
            ≡ carry_at (shape form.entry) self.old.page.now i room self.old.readers.now self.old.buffers.now command }
        ensures page { self.new.page.now ≡ self.old.page.now }
        ensures loans { SameLoans self.old self.new }
    {
        match command {
            Command::BeginCountRead(_, choice) => begins::begin_count(&mut self.readers[i], choice),
            Command::BeginRecordRead(_, attempts) => begins::begin_record(
                &mut self.readers[i],
                attempts,
            ),
            Command::Cancel(_) => begins::cancel(&mut self.readers[i]),
            Command::ReaderStep(_) => self.step(form, i, room),
            // The writer's commands are none of a reader's.
            Command::WriteCount(_) => unreachable!(),
            Command::WriteRecord(_) => unreachable!(),
            Command::WriterStep => unreachable!(),
        }
    }

    // One command on all that is lent: what it ends in, if the log has room for its entry. A refusal changes nothing.
    #[inline(always)]
    pub(crate) fn command(
        &mut self,
        form: Form<'_>,
        pen: &mut Pen,
        records: &[u8],
        command: Command,
        room: usize,
    ) -> Result<Outcome, Refusal>
        requires ready { Ready (shape form) records.now
            (lent_in self.old pen.old.writer) }
        requires knows { Knows (shape form) pen.old }
        ensures carried { after result (lent_in self.new pen.new.writer)
            ≡ carry_lent (shape form.entry) records.now room
            (lent_in self.old pen.old.writer) command }
        ensures knows { Knows (shape form.entry) pen.new }
        ensures loans { SameLoans self.old self.new }
    {
        let n = self.readers.len();
        // A command of the writer names the reader after the last: one comparison tells it and an absent reader.
        let i = command.reader_or(n);
        if i < n {
            return self.carry(form, i, command, room);
        }
        match pen.carry(form, self.page, records, command) {
            Ok(()) => Ok(Outcome::Nothing),
            Err(why) => Err(why),
        }
    }

    // One command, and its entry in the log. A refusal changes nothing.
    // A call, since few commands come here: so the loop of a run stays small.
    #[inline(never)]
    fn act(
        &mut self,
        form: Form<'_>,
        pen: &mut Pen,
        records: &[u8],
        command: Command,
        log: &mut Log<'_>,
    ) -> Result<(), Refusal>
        requires ready { Ready (shape form) records.now
            (lent_in self.old pen.old.writer) }
        requires knows { Knows (shape form) pen.old }
        ensures acted { acted result (lent_in self.new pen.new.writer)
            (added log.new.bytes.now log.new.written)
            ≡ act_lent (shape form.entry) records.now
            (lent_in self.old pen.old.writer)
            (added log.old.bytes.now log.old.written) command }
        ensures knows { Knows (shape form.entry) pen.new }
        ensures loans { SameLoans self.old self.new }
        ensures log_loan { log.new.bytes.ghost_name ≡ log.old.bytes.ghost_name }
    {
        let outcome = self.command(form, pen, records, command, log.room())?;
        log.put(outcome);
        Ok(())
    }

    // A step of reader `i` that ends nothing. Any other is not done.
    #[inline(always)]
    fn read_on(&mut self, form: Form<'_>, i: usize) -> bool
        requires ready { i < length self.old.readers.now → ReadReady (shape form) self.old.page.now
            (reader_at self.old.readers.now i) self.old.buffers.now i (ReaderStep i) }
        ensures moved { ReadOn (shape form.entry) self.old.page.now i self.old.readers.now self.old.buffers.now
            result self.new.readers.now self.new.buffers.now }
        ensures page { self.new.page.now ≡ self.old.page.now }
        ensures loans { SameLoans self.old self.new }
    {
        if self.readers.len() <= i {
            return false;
        }
        let stage = self.readers[i].stage;
        if !reading::advances(stage, form) {
            return false;
        }
        let n = form.format.n;
        let digit = self.page[reading::position(stage, form)];
        reading::advance(
            &mut self.readers[i],
            form,
            &mut self.buffers[i * n..i * n + n],
            digit,
        );
        true
    }

    // A step that ends nothing, if one is next, of a reader or of a pending write: the bytes after it. Any other command is
    // not done.
    #[inline(always)]
    fn advance<'b>(
        &mut self,
        form: Form<'_>,
        pen: &mut Pen,
        records: &[u8],
        bytes: &'b [u8],
    ) -> Option<&'b [u8]>
        requires ready { Ready (shape form) records.now
            (lent_in self.old pen.old.writer) }
        requires knows { Knows (shape form) pen.old }
        ensures went { IfSome result (λ rest. WentOn (shape form.entry) records.now bytes.now rest.now
            (lent_in self.old pen.old.writer)
            (lent_in self.new pen.new.writer)) }
        ensures stays { IfNone result (
            lent_in self.new pen.new.writer
            ≡ lent_in self.old pen.old.writer) }
        ensures knows { Knows (shape form.entry) pen.new }
        ensures loans { SameLoans self.old self.new }
    {
        if let Some((who, rest)) = reader_step(bytes) {
            return if self.read_on(form, usize::from(who)) {
                Some(rest)
            } else {
                None
            };
        }
        let rest = writer_step(bytes)?;
        if pen.writer.kind == Writer::NOTHING {
            return None;
        }
        pen.step(form, self.page, records);
        Some(rest)
    }

    // The commands that bytes say, in turn, up to the first that is refused, with all before it done.
    pub(crate) fn run_bytes(
        &mut self,
        form: Form<'_>,
        pen: &mut Pen,
        records: &[u8],
        commands: &mut Commands<'_>,
        log: &mut Log<'_>,
    ) -> Result<(), Refusal>
        requires ready { Ready (shape form) records.now
            (lent_in self.old pen.old.writer) }
        requires whole { eqb (length records.now % form.format.n) 0 ≡ true }
        requires knows { Knows (shape form) pen.old }
        requires none { (commands.old.done ≡ 0) × (log.old.written ≡ 0) }
        ensures ran { ran_lent
            (ran_as result commands.new.done (length commands.old.bytes.now - length commands.new.bytes.now) log.new.written)
            (lent_in self.new pen.new.writer) log.new.bytes.now
            ≡ run_lent (shape form.entry) records.now
            (lent_in self.old pen.old.writer)
            commands.old.bytes.now log.old.bytes.now }
        ensures fewer { length commands.new.bytes.now ≤ length commands.old.bytes.now }
        ensures loans { SameLoans self.old self.new }
        ensures log_loan { log.new.bytes.ghost_name ≡ log.old.bytes.ghost_name }
    {
        // A while, for the bytes that are left are the caller's to see: a refused command's are not taken.
        while !commands.bytes.is_empty() {
            // Most commands are such steps: they are taken before all is decoded, and no entry is looked for.
            if let Some(left) = self.advance(form, pen, records, commands.bytes) {
                commands.bytes = left;
                commands.done += 1;
                continue;
            }
            let mut rest = *commands;
            let Some(command) = rest.take() else {
                return Err(Refusal::UnknownCommand);
            };
            self.act(form, pen, records, command, log)?;
            commands.bytes = rest.bytes;
            commands.done += 1;
        }
        Ok(())
    }
}
