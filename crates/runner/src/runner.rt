// The side of an execution that runs its workload. The state goes in by value and comes back beside the answer; its queues
// stand in stores that the caller lends: the byte store has a ring of a chunk for each output stream and then the inbox, the
// length store the frames of the input. Every call first meets 12, 10, 46 and, for a store that it is lent, 11.
ghost use Rattle.std.specs.Prelude.{◌≡◌};
ghost use Rattle.runner.specs.Calls.{
  «open»,
  key,
  limits,
  credit,
  input,
  end_input,
  cancel,
  launched,
  read_allowance,
  output,
  discarded,
  output_closed,
  output_failed,
  output_hung_up,
  lent,
  pending_input,
  written_after,
  input_written,
  input_closed,
  exited,
  settled,
  dropped,
  reset,
  disconnect,
  tick,
  deadline,
  next_request,
  next_message,
  is_finished,
  is_detached,
  awaits_settlement,
  memory_bound,
  buffered,
  high_water,
  asked_for,
};
ghost use Rattle.runner.specs.Message.{message_after, wish, wish_effect};
ghost use Rattle.runner.specs.Range.{fresh};
ghost use Rattle.runner.specs.Streams.{input_after, output_after};

use crate::answer::{After, Message, Request};
use crate::pairs::ring_base;
use crate::range::{lengths_do, unopened};
use crate::streams::is_dropped;
use credit::sender::Credit;
use exec::{
    Admission, Cause, Key, LaunchFailure, Limits, Pool, Receipt, Refusal, Settlement, Status,
    Stream, Timers,
};
use inbox::need::{bytes_do, need_fits};
use inbox::receiver::grant_fits;
use input::Input;
use lifecycle::clocks::Clocks;
use lifecycle::flags::Flags;
use lifecycle::life::{Exit, Launch, Life, Settling};
use output::Output;
use output::outputs::put_output;

#[derive(Clone, Copy)]
pub struct Runner {
    pub key: Key,
    pub limits: Limits,
    pub timers: Timers,
    // When each timer fires.
    pub clocks: Clocks,
    // What is known of the workload, and where its settlement stands.
    pub life: Life,
    pub flags: Flags,
    // The workload's standard input.
    pub input: Input,
    // The output streams, in the order of Stream::ALL. That of one that is not open is never read.
    pub outputs: [Output; 3],
    // The credit of the output pools: one a stream, or the first one shared. The last is never read where Notes is not open.
    pub credits: [Credit; 3],
    // The position of the stream whose output is sent first next: one past the last open stream is refusal 12, so it is a number.
    pub turn: u8,
    // The most bytes that were held at once.
    pub high_water: usize,
}

impl Runner {
    // A fresh runner of the execution `key`, created at an instant from which its timeout runs, whose input is granted at least
    // `smallest` units at once. A refused open hands back a runner without limits, on which every call is refused by 10.
    #[tactic(auto, unfolding(crate::specs::Calls::open))]
    pub fn open(
        key: Key,
        limits: Limits,
        timers: Timers,
        smallest: u32,
        created: u64,
        store: &[u8],
        lengths: &[u32],
    ) -> After<()>
        ensures { result ≡ «open» key limits timers smallest created store.now lengths.now }
    {
        let enough = bytes_do(limits, store.len()) & lengths_do(limits, lengths.len());
        if limits.is_valid()
            & (grant_fits(smallest, limits.input.size) & (need_fits(limits) & enough))
        {
            let runner = Runner::fresh(key, limits, timers, smallest, created);
            return After {
                runner,
                answer: Ok(()),
            };
        }
        let none = Limits::none();
        let runner = Runner::fresh(key, none, timers, smallest, created);
        After {
            runner,
            answer: Err(unopened(limits, smallest)),
        }
    }

    #[tactic(auto, unfolding(crate::specs::Range::fresh))]
    fn fresh(key: Key, limits: Limits, timers: Timers, smallest: u32, now: u64) -> Runner
        ensures { result ≡ fresh key limits timers smallest now }
    {
        // The input's window is taken out whole: by `limits.input.size` here the compiler copies chunk and unit as one word, and
        // a caller's code tests a unit that it knows (input of 64 bytes takes 201 instructions so, and 141 this way).
        let window = limits.input;
        let output = Output::new();
        let credit = Credit::new(limits.output.size);
        let input = Input::new(window.size, smallest);
        let timeout_at = timers.timeout_at(now);
        Runner {
            key,
            limits,
            timers,
            clocks: Clocks {
                timeout_at,
                grace_until: None,
                give_up_at: None,
                abandon_at: None,
                terminated: false,
            },
            life: Life {
                launch: Launch::Awaited,
                exit: Exit::Running,
                cause: None,
                terminate_request: None,
                settling: Settling::Idle,
            },
            flags: Flags {
                started_message: false,
                settle_request: false,
                gave_up: false,
                launch_abandoned: false,
                detached: false,
                credited: false,
                finished: false,
            },
            input,
            outputs: [output, output, output],
            credits: [credit, credit, credit],
            turn: 0,
            high_water: 0,
        }
    }

    // The execution's key. (It and the nine like it below are one test and one question each, as short as a call of a combinator.)
    #[tactic(auto, unfolding(crate::specs::Calls::key))]
    pub fn key(self) -> Result<Key, Refusal>
        ensures { result ≡ key self }
    {
        self.check(true)?;
        Ok(self.key)
    }

    // The limits that both sides agreed on.
    #[tactic(auto, unfolding(crate::specs::Calls::limits))]
    pub fn limits(self) -> Result<Limits, Refusal>
        ensures { result ≡ limits self }
    {
        self.check(true)?;
        Ok(self.limits)
    }

    // The peer's credit for an output pool, which the limits must have. A grant of no units, or of more than are in flight, is
    // refused.
    pub fn credit(mut self, key: Key, pool: Pool, units: u32) -> After<Receipt>
        ensures { result ≡ credit self key pool units }
    {
        let mut credits = self.credits;
        let answer = self.grant(key, pool, units, &mut credits);
        self.credits = credits;
        After {
            runner: self,
            answer,
        }
    }

    // Bytes of the workload's input from the peer. Once the input is closed they are dropped, and the charge stands.
    #[tactic(auto, unfolding(crate::specs::Calls::input, crate::specs::Streams::received, crate::specs::Streams::input_next, crate::specs::Streams::input_answer, crate::specs::Streams::input_store, crate::specs::Streams::input_lengths), using(crate::proofs::Guards::tested_stop))]
    pub fn input(
        mut self,
        key: Key,
        store: &mut [u8],
        lengths: &mut [u32],
        bytes: &[u8],
    ) -> After<Receipt>
        ensures { input_after result store.new lengths.new ≡ input self key bytes.now store.old lengths.old }
    {
        let enough = bytes_do(self.limits, store.len()) & lengths_do(self.limits, lengths.len());
        let good = self.agrees(enough) & self.stands();
        let answer = if self.hears(good, key) {
            let receiving = self.input.receive(self.limits, store, lengths, bytes);
            self.input = receiving.input;
            self.high_water = self.mark(is_dropped(receiving.received));
            receiving.received
        } else {
            self.meets(good, key)
        };
        After {
            runner: self,
            answer,
        }
    }

    // The end of the workload's input from the peer.
    #[tactic(auto, unfolding(crate::specs::Calls::end_input, crate::specs::Streams::end_answer), using(crate::proofs::Ends::end_stale, crate::proofs::Ends::end_refused))]
    pub fn end_input(self, key: Key) -> After<Receipt>
        ensures { result ≡ end_input self key }
    {
        self.hear(key, |runner| runner.end())
    }

    // The peer's cancellation: it ends the workload for `cause`, and begins the grace of its pending output. Late once a
    // termination began or the execution ended; nothing at all for a stale key.
    #[tactic(auto, unfolding(crate::specs::Calls::cancel, crate::specs::Life::cancelled, crate::specs::Life::cancel_answer, crate::specs::Life::cancel_next))]
    pub fn cancel(self, now: u64, key: Key, cause: Cause) -> After<Receipt>
        ensures { result ≡ cancel self now key cause }
    {
        self.hear(key, |runner| runner.cancel_now(now, cause))
    }

    // The workload's launch result. Only the first counts, and none once the runner gave up on it.
    #[tactic(auto, unfolding(crate::specs::Calls::launched))]
    pub fn launched(self, report: Result<(), LaunchFailure>) -> After<()>
        ensures { result ≡ launched self report }
    {
        self.note(self.check(true), |runner| runner.launch(report))
    }

    // How many more bytes of a stream may be read and handed over with `output`.
    #[tactic(auto, unfolding(crate::specs::Calls::read_allowance))]
    pub fn read_allowance(self, stream: Stream) -> Result<usize, Refusal>
        ensures { result ≡ read_allowance self stream }
    {
        self.check_at(stream, true)?;
        Ok(self.allowance(stream))
    }

    // Bytes that were read from a stream, in order, of which it takes as many as the allowance lets it. While the stream is
    // discarded it takes all, and drops them.
    #[tactic(auto, unfolding(crate::specs::Calls::output, crate::specs::Streams::output_took, crate::specs::Streams::output_next, crate::specs::Streams::output_taken, crate::specs::Streams::output_store, output::specs::Output::taken_in), using(crate::proofs::Guards::tested_stop_at))]
    pub fn output(mut self, stream: Stream, store: &mut [u8], bytes: &[u8]) -> After<usize>
        ensures { output_after result store.new ≡ output self stream bytes.now store.old }
    {
        let enough = bytes_do(self.limits, store.len());
        let good = self.agrees(enough) & self.stands();
        let answer = if good & self.limits.has(stream) {
            let none = self.keeps_none(stream);
            let output = self.out_of(stream);
            let base = ring_base(stream, self.limits.chunk);
            let intake = output.take_in(self.flags.gave_up, store, base, self.limits.chunk, bytes);
            let outputs = put_output(stream, intake.output, self.outputs);
            self.outputs = outputs;
            self.high_water = self.mark(none);
            Ok(intake.taken)
        } else {
            Err(self.stopped_at(good))
        };
        After {
            runner: self,
            answer,
        }
    }

    // So many bytes of a stream were read and dropped, which truncates it unless there were none.
    #[tactic(auto, unfolding(crate::specs::Calls::discarded, crate::specs::Streams::discarded_next))]
    pub fn discarded(self, stream: Stream, bytes: usize) -> After<()>
        ensures { result ≡ discarded self stream bytes }
    {
        self.note(self.check_at(stream, true), |runner| {
            runner.at(stream, |output| output.discard(bytes))
        })
    }

    // Every writer of a stream closed it.
    #[tactic(auto, unfolding(crate::specs::Calls::output_closed, crate::specs::Streams::closed_next))]
    pub fn output_closed(self, stream: Stream) -> After<()>
        ensures { result ≡ output_closed self stream }
    {
        self.note(self.check_at(stream, true), |runner| {
            runner.at(stream, |output| output.close())
        })
    }

    // Reading a stream failed, which ends and truncates it.
    #[tactic(auto, unfolding(crate::specs::Calls::output_failed, crate::specs::Streams::failed_next))]
    pub fn output_failed(self, stream: Stream) -> After<()>
        ensures { result ≡ output_failed self stream }
    {
        self.note(self.check_at(stream, true), |runner| {
            runner.at(stream, |output| output.fail())
        })
    }

    // Every writer of a stream closed it, though it is not read to its end.
    #[tactic(auto, unfolding(crate::specs::Calls::output_hung_up, crate::specs::Streams::hung_up_next))]
    pub fn output_hung_up(self, stream: Stream) -> After<()>
        ensures { result ≡ output_hung_up self stream }
    {
        self.note(self.check_at(stream, true), |runner| {
            runner.at(stream, |output| output.hang_up())
        })
    }

    // The bytes of input that the adapter writes to the workload next: those that wait from the ring's head to the end of its
    // area, as a part of the byte store.
    #[tactic(auto, unfolding(crate::specs::Calls::pending_input, crate::specs::Streams::pending_of))]
    pub fn pending_input<'a>(self, store: &'a [u8]) -> Result<&'a [u8], Refusal>
        ensures { lent result ≡ pending_input self store.now }
    {
        self.check(bytes_do(self.limits, store.len()))?;
        Ok(self.input.pending(self.limits, store))
    }

    // The workload took so many bytes of its input. It answers how many frames of the input this came to with bytes still to take.
    #[tactic(auto, unfolding(crate::specs::Calls::input_written, crate::specs::Streams::written_next, crate::specs::Streams::written_came, crate::specs::Streams::written_lengths), using(crate::proofs::Guards::tested_stop))]
    pub fn input_written(mut self, lengths: &mut [u32], bytes: usize) -> After<usize>
        ensures { written_after result lengths.new ≡ input_written self bytes lengths.old }
    {
        let enough = lengths_do(self.limits, lengths.len());
        let good = self.agrees(enough) & self.stands();
        let answer = if good {
            let writing = self.input.written(self.limits, lengths, bytes);
            self.input = writing.input;
            Ok(writing.came as usize)
        } else {
            Err(self.stopped())
        };
        After {
            runner: self,
            answer,
        }
    }

    // The workload's input closed, other than by the runner's request.
    #[tactic(auto, unfolding(crate::specs::Calls::input_closed))]
    pub fn input_closed(self) -> After<()>
        ensures { result ≡ input_closed self }
    {
        self.note(self.check(true), |runner| runner.close_input())
    }

    // The workload's end, with its status unless that is lost. Only the first counts.
    #[tactic(auto, unfolding(crate::specs::Calls::exited))]
    pub fn exited(self, now: u64, status: Option<Status>) -> After<()>
        ensures { result ≡ exited self now status }
    {
        self.note(self.check(true), |runner| runner.exit(now, status))
    }

    // The result of the settlement that was requested.
    #[tactic(auto, unfolding(crate::specs::Calls::settled))]
    pub fn settled(self, report: Settlement) -> After<()>
        ensures { result ≡ settled self report }
    {
        self.note(self.check(true), |runner| runner.settle(report))
    }

    // Ends the workload, as the adapter abandons the execution, and detaches the runner from the peer.
    #[tactic(auto, unfolding(crate::specs::Calls::dropped))]
    pub fn dropped(self, now: u64) -> After<()>
        ensures { result ≡ dropped self now }
    {
        self.detached(now, Cause::Dropped)
    }

    // Ends the workload, as the session with the peer was reset, and detaches the runner from the peer.
    #[tactic(auto, unfolding(crate::specs::Calls::reset))]
    pub fn reset(self, now: u64) -> After<()>
        ensures { result ≡ reset self now }
    {
        self.detached(now, Cause::Reset)
    }

    // Ends the workload, as the transport to the peer was lost, and detaches the runner from the peer.
    #[tactic(auto, unfolding(crate::specs::Calls::disconnect))]
    pub fn disconnect(self, now: u64) -> After<()>
        ensures { result ≡ disconnect self now }
    {
        self.detached(now, Cause::Disconnected)
    }

    // Fires the timers whose instants `now` has reached. They are handed a copy, and what they do not move is left in its place, so
    // that a tick with nothing due copies nothing.
    #[tactic(auto, unfolding(crate::specs::Calls::tick, crate::specs::RangeLaws::stop_if), using(crate::proofs::Guards::tested_stop, crate::proofs::Quiet::ticked_is, crate::proofs::Quiet::in_fire))]
    pub fn tick(mut self, now: u64) -> After<()>
        ensures { result ≡ tick self now }
    {
        let good = self.agrees(true) & self.stands();
        let answer = self.reply(good);
        if good & self.any_due(now) {
            let before = self;
            let after = before.fire(now);
            let clocks = after.clocks.again();
            let life = after.life.again();
            self.clocks = clocks;
            self.life = life;
            self.flags = after.flags;
            self.input = after.input;
            let outputs = after.outputs;
            self.outputs = outputs;
        }
        After {
            runner: self,
            answer,
        }
    }

    // When the next timer fires.
    #[tactic(auto, unfolding(crate::specs::Calls::deadline))]
    pub fn deadline(self) -> Result<Option<u64>, Refusal>
        ensures { result ≡ deadline self }
    {
        self.check(true)?;
        Ok(self.deadline_of())
    }

    // The next request to apply to the workload, if one waits.
    #[tactic(auto, unfolding(crate::specs::Calls::next_request, crate::specs::Message::wish_effect))]
    pub fn next_request(self) -> After<Option<Request>>
        ensures { result ≡ next_request self }
    {
        self.call(self.check(true), |runner| runner.ask())
    }

    #[tactic(auto, unfolding(crate::specs::Message::wish_effect))]
    fn ask(self) -> After<Option<Request>>
        ensures { result ≡ record { runner = wish_effect (wish self) self; answer = asked_for (wish self) } }
    {
        let wish = self.wish();
        let runner = match wish {
            Some(request) => self.hand(request),
            None => self,
        };
        After {
            runner,
            answer: Ok(wish),
        }
    }

    // The next message to send the peer, if one waits. An output message stands at the start of `buffer`.
    #[tactic(auto, unfolding(crate::specs::Calls::next_message, crate::specs::Message::say), using(crate::proofs::Guards::tested_stop))]
    pub fn next_message(self, store: &[u8], buffer: &mut [u8]) -> After<Option<Message>>
        ensures { message_after result buffer.new ≡ next_message self store.now buffer.old }
    {
        let enough = bytes_do(self.limits, store.len());
        let good = self.agrees(enough) & self.stands();
        let choice = self.choice(good, buffer.len());
        let answer = self.answer(good, choice);
        let runner = self.say(choice, store, buffer);
        After { runner, answer }
    }

    // Whether the terminal outcome was returned.
    #[tactic(auto, unfolding(crate::specs::Calls::is_finished))]
    pub fn is_finished(self) -> Result<bool, Refusal>
        ensures { result ≡ is_finished self }
    {
        self.check(true)?;
        Ok(self.flags.finished)
    }

    // Whether the runner is detached from the peer.
    #[tactic(auto, unfolding(crate::specs::Calls::is_detached))]
    pub fn is_detached(self) -> Result<bool, Refusal>
        ensures { result ≡ is_detached self }
    {
        self.check(true)?;
        Ok(self.flags.detached)
    }

    // Whether the result of the settlement is awaited.
    #[tactic(auto, unfolding(crate::specs::Calls::awaits_settlement))]
    pub fn awaits_settlement(self) -> Result<bool, Refusal>
        ensures { result ≡ awaits_settlement self }
    {
        self.check(true)?;
        Ok(self.life.settling.is_requested())
    }

    // The most bytes that the runner holds at once.
    #[tactic(auto, unfolding(crate::specs::Calls::memory_bound))]
    pub fn memory_bound(self) -> Result<usize, Refusal>
        ensures { result ≡ memory_bound self }
    {
        self.check(true)?;
        Ok(inbox::need::byte_need(self.limits))
    }

    // The bytes that the runner holds now.
    #[tactic(auto, unfolding(crate::specs::Calls::buffered))]
    pub fn buffered(self) -> Result<usize, Refusal>
        ensures { result ≡ buffered self }
    {
        self.check(true)?;
        Ok(self.held())
    }

    // The most bytes that the runner has held at once.
    #[tactic(auto, unfolding(crate::specs::Calls::high_water))]
    pub fn high_water(self) -> Result<usize, Refusal>
        ensures { result ≡ high_water self }
    {
        self.check(true)?;
        Ok(self.high_water)
    }
}
