ghost use Rattle.std.specs.Prelude.{◌≡◌, IfOk, OnOk, false};
ghost use Rattle.aseba_router.specs.Ends.{WireHeard, WireWrote};
ghost use Rattle.aseba_router.specs.Shown.{put};
ghost use Rattle.aseba_router.specs.Taken.{WireTook};
ghost use Rattle.aseba_router.specs.declared.stage.Stage.TheVariants.{Away, There};

use crate::entry::Entry;
use crate::reading::read_frame;
use crate::stage::Stage;
use aseba_edge::{LinkIn, LinkOut};
use aseba_message::{Frame, encode};
use aseba_words::{List, Mem};
use std::alloc::Global;
use std::marker::Model;

/// A link of the switch.
#[derive(Drop)]
pub(crate) struct Wire<I: LinkIn, O: LinkOut> {
    input: I,
    output: O,
    stage: Stage,
    is_broken: bool,
}

impl<I: LinkIn, O: LinkOut> Model for Wire<I, O> {
    ghost use Rattle.aseba_router.specs.Ends.{WireState};

    ghost Value = { WireState };

    ghost view = { λ w. record {
      ends = record {
        input = I.contents w.input;
        input_mark = I.mark w.input;
        read_faults = I.faults w.input;
        taken = O.taken w.output;
        output_mark = O.mark w.output;
        put_faults = O.faults w.output;
      };
      stage = w.stage;
      broken = w.is_broken;
    } };
}

impl<I: LinkIn, O: LinkOut> Wire<I, O> {
    /// A link whose session hasn't joined.
    pub fn new(input: I, output: O) -> Wire<I, O>
        ensures { result ≡ record {
          ends = record {
            input = I.contents input;
            input_mark = I.mark input;
            read_faults = I.faults input;
            taken = O.taken output;
            output_mark = O.mark output;
            put_faults = O.faults output;
          };
          stage = Away;
          broken = false;
        } }
    {
        Wire {
            input,
            output,
            stage: Stage::Away,
            is_broken: false,
        }
    }

    /// The link's ends.
    pub fn into_ends(self) -> (I, O)
        ensures { self.ends ≡ record {
          input = I.contents result.0;
          input_mark = I.mark result.0;
          read_faults = I.faults result.0;
          taken = O.taken result.1;
          output_mark = O.mark result.1;
          put_faults = O.faults result.1;
        } }
    {
        let Wire { input, output, .. } = self;
        (input, output)
    }

    /// How far its session has come.
    pub fn stage(&self) -> Stage
        ensures { result ≡ self.now.stage }
    {
        self.stage
    }

    /// Its session joins.
    pub fn open(&mut self)
        ensures { self.new ≡ record self.old { stage = There } }
    {
        self.stage = Stage::There;
    }

    /// Reads a frame: none where none comes any more, and then its session leaves.
    pub fn hear(&mut self, alloc: Global) -> Result<Option<Frame>, Mem>
        ensures { IfOk result (λ frame. WireHeard frame self.old self.new) }
    {
        let frame = read_frame(alloc, &mut self.input)?;
        if frame.is_none() {
            self.stage = Stage::Gone;
        }
        Ok(frame)
    }

    /// Writes a frame. Behind a put that failed nothing is written.
    pub fn write(&mut self, alloc: Global, frame: &Frame) -> Result<(), Mem>
        ensures { OnOk result (WireWrote frame.now self.old self.new) }
    {
        if self.is_broken {
            return Ok(());
        }
        let mut bytes = List::new(alloc);
        encode(alloc, frame, &mut bytes)?;
        self.is_broken = self.output.put(bytes.as_slice()).is_err();
        Ok(())
    }

    /// Takes an entry of its port's queue: a frame is written.
    pub fn take(&mut self, alloc: Global, entry: &Entry) -> Result<(), Mem>
        ensures { OnOk result (WireTook (put entry.now) self.old self.new) }
    {
        match entry {
            Entry::Frame(frame) => self.write(alloc, frame),
            Entry::End(_) => Ok(()),
        }
    }
}
