// The lines of a listing, by hand and not by `Display`, which only `write!` serves (text.rt). `short` says how much of the
// listing a text takes at most, another number for each; `within`, that an output has what an answer tells of it.
ghost use Rattle.std.specs.Prelude.{◌+◌, ◌*◌, ◌≤◌, [], ◌∷◌, ◌++◌, length, codes, decimal};
ghost use Rattle.link.specs.Calls.{refusal, accepted, answer_of, bytes_told, Reply};
ghost use Rattle.link.specs.Steps.{reply};
ghost use Rattle.bench.specs.Commands.{opcode};
ghost use Rattle.bench.specs.Refusals.{stop_number};
ghost use Rattle.bench.specs.Texts.{answer_text, told_line, line, ending_line, stopped_at};
ghost use Rattle.bench.specs.Writing.{Adds, Room};

use crate::command::Command;
use crate::listing::Listing;
use crate::stop::Stop;
use link::call::Answer;
use link::refusal::Refusal;

impl Listing<'_> {
    // A number behind a space.
    fn also(&mut self, n: u32)
        requires { Room self.old 11 }
        ensures text { Adds self.old (codes " " ++ decimal n) self.new }
        ensures short { self.new.used ≤ self.old.used + 11 }
    {
        self.word(b" ");
        self.number(n);
    }

    // A refusal: its number, and the values told with it.
    fn refusal(&mut self, why: Refusal)
        requires { Room self.old 30 }
        ensures text { Adds self.old (answer_text (refusal why) []) self.new }
        ensures short { self.new.used ≤ self.old.used + 30 }
    {
        self.word(b"no ");
        // It is at most 10, and a byte takes 3 digits at most.
        self.number(why.number() as u8);
        if let Refusal::Mixings(short) = why {
            self.also(short.wanted);
            self.also(short.left);
        }
    }

    // What is answered where a call is not refused, and the bytes at the head of the output that it tells.
    fn accepted(&mut self, answer: Answer, output: &[u8])
        requires within { bytes_told (accepted answer) ≤ length output.now }
        requires room { Room self.old (30 + 2 * bytes_told (accepted answer)) }
        ensures text { Adds self.old (answer_text (accepted answer) output.now) self.new }
        ensures short { self.new.used ≤ self.old.used + (30 + 2 * bytes_told (accepted answer)) }
    {
        match answer {
            Answer::Started | Answer::Closed => self.word(b"ok"),
            Answer::Sealed(n) | Answer::Opened(n) => {
                self.word(b"ok ");
                self.hex(&output[..n]);
            }
            Answer::Left(n) => self.number(n),
        }
    }

    fn answer(&mut self, answer: Result<Answer, Refusal>, output: &[u8])
        requires within { bytes_told (answer_of answer) ≤ length output.now }
        requires room { Room self.old (30 + 2 * bytes_told (answer_of answer)) }
        ensures text { Adds self.old (answer_text (answer_of answer) output.now) self.new }
        ensures short { self.new.used ≤ self.old.used + (30 + 2 * bytes_told (answer_of answer)) }
    {
        match answer {
            Ok(answer) => self.accepted(answer, output),
            Err(why) => self.refusal(why),
        }
    }

    // The line of a command: the byte that names it, and the answer to it.
    pub(crate) fn answer_line(
        &mut self,
        command: Command,
        answer: Result<Answer, Refusal>,
        output: &[u8],
    )
        requires within { bytes_told (answer_of answer) ≤ length output.now }
        requires room { Room self.old (34 + 2 * bytes_told (answer_of answer)) }
        ensures text { Adds self.old (line (told_line command (reply (answer_of answer) output.now)))
            self.new }
        ensures short { self.new.used ≤ self.old.used + (34 + 2 * bytes_told (answer_of answer)) }
    {
        self.hex(&[command.opcode()]);
        self.word(b" ");
        self.answer(answer, output);
        self.word(b"\n");
    }

    // The last line of a run that was stopped at a place.
    pub(crate) fn stop_line(&mut self, stop: Stop, place: u32)
        requires { Room self.old 30 }
        ensures { Adds self.old (line (ending_line (stopped_at (stop_number stop) place))) self.new }
    {
        self.word(b"stop ");
        self.number(stop.number());
        self.word(b" at ");
        self.number(place);
        self.word(b"\n");
    }
}
