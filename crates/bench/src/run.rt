// A run: the commands of a script, carried out in turn.
ghost use Rattle.std.specs.Prelude.{◌≡◌, ◌≤◌, [], length, Ok, Err};
ghost use Rattle.link.specs.Questions.{stopped};
ghost use Rattle.link.specs.Steps.{view};
ghost use Rattle.bench.specs.Pools.{IsCall, room};
ghost use Rattle.bench.specs.Reading.{Admitted};
ghost use Rattle.bench.specs.Refusals.{stop_number, told, run_refusal};
ghost use Rattle.bench.specs.Runs.{verdict_at, RunDid};
ghost use Rattle.bench.specs.Steps.{state, Same, Carried, Went, Stayed, Lines};
ghost use Rattle.bench.specs.Writing.{Room, free};

use crate::command::Command;
use crate::listing::Listing;
use crate::refusal::RunRefusal;
use crate::script::read;
use crate::stop::Stop;
use engine::Engine;
use link::call::Call;
use link::endpoint::Endpoint;

const LONGEST_SCRIPT: usize = 65_536;

const SHORTEST_LISTING: usize = 80;

// What a run works on. The loan 'm of the listing is shorter than 'l, that of its bytes. `Same` stands in each contract,
// since a struct that holds references has to say that it keeps them.
#[derive(Drop)]
struct Bench<'a, 'm, 'l, E> {
    endpoint: &'a mut Endpoint<E>,
    pool: &'a [u8],
    work: &'a mut [u8],
    listing: &'m mut Listing<'l>,
}

impl<'a, E: Engine> Bench<'a, '_, '_, E> {
    // Reads the command at the head of a script and asks its questions: tells it, the call that it is and what follows
    // it, or what stops the run.
    fn admit<'s>(&self, script: &'s [u8]) -> Result<(Command, Call<'a>, &'s [u8]), Stop>
        ensures { elim result [
          | Ok p ↦ Admitted (length self.now.pool.now) (free self.now.listing.now) script.now p.0 p.2.now
              × IsCall self.now.pool.now p.0 p.1
          | Err stop ↦ verdict_at (length self.now.pool.now) (free self.now.listing.now) script.now
              ≡ stopped (stop_number stop) []
        ] }
    {
        let (command, rest) = read(script)?;
        let made = command.call(self.pool).ok_or(Stop::OutsidePool)?;
        if self.listing.free() < command.room() {
            return Err(Stop::ListingFull);
        }
        Ok((command, made, rest))
    }

    // Makes the call that a command is, and adds its line. That it is that command's call is a relation of both and of the
    // pool, which no type of one value has.
    fn carry_out(&mut self, command: Command, made: Call)
        requires is { IsCall self.old.pool.now command made }
        requires room { Room self.old.listing.now (room command) }
        ensures did { Carried E.mixing self.old.pool.now command
            (state E.bytes E.budget self.old) (state E.bytes E.budget self.new) }
        ensures same { Same self.old self.new }
    {
        // One loan at a time: no proof rule covers several fields lent in the call itself.
        let work = &mut *self.work;
        let endpoint = &mut *self.endpoint;
        let answer = endpoint.call(made, work);
        self.listing.answer_line(command, answer, work);
    }

    // Carries out the command at the head of `rest`: tells what follows it, or what stops the run.
    fn step<'s>(&mut self, rest: &'s [u8]) -> Result<&'s [u8], Stop>
        ensures did { elim result [
          | Ok more ↦ Went E.mixing self.old.pool.now rest.now
              (state E.bytes E.budget self.old) (state E.bytes E.budget self.new) more.now
          | Err stop ↦ Stayed self.old.pool.now rest.now
              (state E.bytes E.budget self.old) (state E.bytes E.budget self.new) stop
        ] }
        ensures same { Same self.old self.new }
    {
        let (command, made, more) = self.admit(rest)?;
        self.carry_out(command, made);
        Ok(more)
    }

    // Carries out a script, as far as it goes, and adds the last line.
    fn carry_out_all(&mut self, script: &[u8])
        requires small { length script.now ≤ 65536 }
        requires spare { Room self.old.listing.now 30 }
        ensures did { Lines E.mixing self.old.pool.now script.now
            (state E.bytes E.budget self.old) (state E.bytes E.budget self.new) }
        ensures same { Same self.old self.new }
    {
        let mut rest = script;
        while !rest.is_empty() {
            match self.step(rest) {
                Ok(more) => rest = more,
                Err(stop) => {
                    self.listing
                        .stop_line(stop, (script.len() - rest.len()) as u32);
                    return;
                }
            }
        }
        self.listing.word(b"end\n");
    }
}

// Runs a script on an endpoint, with the work area as the output of its calls: tells the length of the listing made.
pub fn run<E: Engine>(
    endpoint: &mut Endpoint<E>,
    script: &[u8],
    pool: &[u8],
    work: &mut [u8],
    listing: &mut [u8],
) -> Result<usize, RunRefusal>
    ensures did { RunDid E.mixing (view E.bytes E.budget endpoint.old)
        script.now pool.now work.old listing.old
        (told run_refusal result) (view E.bytes E.budget endpoint.new) work.new listing.new }
{
    if script.len() > LONGEST_SCRIPT {
        return Err(RunRefusal::ScriptLength);
    }
    if listing.len() < SHORTEST_LISTING {
        return Err(RunRefusal::ListingLength);
    }
    let mut listed = Listing {
        bytes: listing,
        used: 0,
    };
    let mut bench = Bench {
        endpoint,
        pool,
        work,
        listing: &mut listed,
    };
    bench.carry_out_all(script);
    Ok(listed.used)
}
