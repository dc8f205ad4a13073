// Report lines, each written on a page.
ghost use Rattle.std.specs.Prelude.{ℕ, ◌+◌, ◌<◌, ◌≤◌, ◌^◌, List, [], ◌++◌, length};
ghost use Rattle.text.specs.LineForm.{digits};
ghost use Rattle.text.specs.Printing.{bytes, decimal};
ghost use Rattle.theory.specs.feeding.Meaning.{meaning};
ghost use Rattle.requests.specs.entries.Table.{tables_excuse};
ghost use Rattle.text.specs.ReportLines.{access_part, access_line, refused_as, refused_line, excused_for, partner_in};
ghost use Rattle.text.specs.Words.{Opens};
ghost use Rattle.report.specs.Pages.{HasRoom, LineRoom, Put, PutLine};

use crate::page::Page;
use crate::telling::{VerdictTold, told_answer};
use theory::{Answer, Clocks, Control, History, Record};

impl<'a> Page<'a> {
    // The first part of an access's line, up to its variable.
    #[tactic(auto, using(text::proofs::Lengths::length_access_part), unfolding(text::specs::Printing::last_digits))]
    fn put_access_part(&mut self, number: u32, task: u32, variable: u32)
        requires { HasRoom self.old (access_part number task variable) }
        ensures { Put self.old (access_part number task variable) self.new }
    {
        self.put_bytes(b"rec");
        self.put_number(number);
        self.put_bytes(b" task=");
        self.put_decimal(task as u64);
        self.put_bytes(b" var=");
        self.put_decimal(variable as u64);
    }

    // The line of an accepted access. The bytes after the verdict's word are written over.
    #[tactic(auto, using(text::proofs::Lengths::length_access_part), unfolding(text::specs::Printing::last_digits, text::specs::Words::little_bytes))]
    fn put_access_line(&mut self, r: Record, j: VerdictTold)
        requires { (self.old.at + 44 + length (decimal r.task) + length (decimal r.on) + j.len ≤ length self.old.out.now) × (3 ≤ j.len) × (j.len ≤ 8) }
        ensures { (w : List ℕ) → Opens (bytes "=" ++ w) j.word j.len → Put self.old (access_line j.number r.task r.on w j.partner) self.new }
    {
        self.put_access_part(j.number, r.task, r.on);
        self.put_bytes(b" verdict");
        let word = self.at;
        self.put_eight(j.word);
        self.at = word + j.len;
        self.put_bytes(b" with");
        self.put_number(j.partner);
        self.put_bytes(b"\n");
    }

    // The line of a refused line of a text of which each is called so, by its line number and the refusal's number.
    #[tactic(auto, using(crate::proofs::Pages::fits_line, crate::proofs::Pages::fits_refusal))]
    pub(crate) fn put_refusal(&mut self, name: &[u8], line: u64, number: u32)
        requires { LineRoom self.old × (length name.now ≤ 6) }
        ensures { PutLine self.old (refused_as name.now line number) self.new }
    {
        self.put_bytes(name);
        self.put_decimal(line);
        self.put_bytes(b" refused=");
        self.put_decimal(number as u64);
        self.put_bytes(b"\n");
    }

    // The line of a refused line of a recording.
    pub(crate) fn put_refused(&mut self, line: u64, number: u32)
        requires { LineRoom self.old }
        ensures { PutLine self.old (refused_line line number) self.new }
    {
        self.put_refusal(b"line=", line, number);
    }

    // What the report has for a line that said the record r and got the answer a, a Race as the tables excuse it once r is fed.
    // 64 bytes are room enough where task and variable have at most as many digits as in the text form.
    pub(crate) fn put_answer(
        &mut self,
        line: u64,
        r: Record,
        a: Answer,
        control: &Control,
        last: &History,
        fullclocks: &Clocks,
    )
        requires { LineRoom self.old × (r.task < 10 ^ digits) × (r.on < 10 ^ digits) }
        ensures { let excused = tables_excuse control.now last.now fullclocks.now r (partner_in (meaning a)) in
            PutLine self.old (excused_for line r excused (meaning a)) self.new }
    {
        match a {
            Answer::Refused(row) => self.put_refused(line, row as u32),
            Answer::Accepted(_) => {}
            _ => self.put_access_line(r, told_answer(r, a, control, last, fullclocks)),
        }
    }
}
