//! What is told of an input once it was read to its end, where that is asked for.

use crate::pairs_bound::PairsBound;
use crate::settings_reasons::KeptText;
use std::alloc::Global;
use std::sync::atomic::AtomicU64;

// What is told of an input.
#[derive(Clone, Copy)]
enum Topic {
    Nothing,
    // why settings are refused
    Settings,
    // how many pairs the slopes of blocks may give
    Blocks,
}

/// What was read of an input, as far as it is told of. It has the same parts whatever that is, so that there is one way
/// to give it back: a command has several inputs, and gives each back wherever it ends early.
#[derive(Drop)]
pub struct InputNotes<'a> {
    topic: Topic,
    text: KeptText<'a>,
    bound: PairsBound<'a>,
}

impl<'a> InputNotes<'a> {
    // What was read of this, if anything is told of it.
    fn of(
        topic: Topic,
        is_told: bool,
        text: KeptText<'a>,
        bound: PairsBound<'a>,
    ) -> InputNotes<'a> {
        InputNotes {
            topic: if is_told { topic } else { Topic::Nothing },
            text,
            bound,
        }
    }

    /// Nothing is told.
    pub fn nothing(alloc: Global) -> InputNotes<'a> {
        let text = KeptText::new(alloc, None);
        InputNotes::of(Topic::Nothing, false, text, PairsBound::new(None))
    }

    /// Of settings, if anything is told: why they are refused.
    pub fn of_settings(
        alloc: Global,
        is_told: bool,
        offsets: Option<&'a AtomicU64>,
    ) -> InputNotes<'a> {
        let text = KeptText::new(alloc, offsets);
        InputNotes::of(Topic::Settings, is_told, text, PairsBound::new(None))
    }

    /// Of settings whose slopes are used, if anything is told: why they are refused.
    pub fn of_sloped_settings(alloc: Global, is_told: bool) -> InputNotes<'a> {
        let text = KeptText::of_slopes(alloc);
        InputNotes::of(Topic::Settings, is_told, text, PairsBound::new(None))
    }

    /// Of blocks, if anything is told: how many pairs their slopes may give.
    pub fn of_blocks(alloc: Global, is_told: bool, offsets: &'a AtomicU64) -> InputNotes<'a> {
        let text = KeptText::new(alloc, None);
        InputNotes::of(Topic::Blocks, is_told, text, PairsBound::new(Some(offsets)))
    }

    /// Takes in further bytes.
    pub fn hear(&mut self, bytes: &[u8]) {
        match self.topic {
            Topic::Nothing => {}
            Topic::Settings => self.text.keep(bytes),
            Topic::Blocks => self.bound.count(bytes),
        }
    }

    /// Tells of the input with this name, at its end, once.
    pub fn tell<R: Eprint + AllocGlobal>(&mut self, rt: &R, name: &str) {
        match self.topic {
            Topic::Nothing => {}
            Topic::Settings => self.text.tell(rt, rt.alloc(), name),
            Topic::Blocks => self.bound.tell(rt),
        }
        self.topic = Topic::Nothing;
    }
}
