//! Text on its way to a sink: it is written in blocks, from one buffer that is reused.

ghost use Rattle.std.specs.Prelude.{◌≡◌, ◌++◌, ◌∷◌, [], OnOk, flat_map, map};
ghost use Rattle.nj_tools.specs.Cited.{IsSame, PutsText, WritesText};

use crate::sinks::Sink;
use crate::tool_fault::ToolFault;
use crate::whole_text::write_whole;
use std::alloc::AllocError;

// Text is written once it has this many bytes.
const BLOCK: usize = 65536;

/// A sink, and the text that is to be passed to it next.
#[derive(Drop)]
pub(crate) struct Output<'s, S: Sink> {
    sink: &'s mut S,
    pub(crate) pending: &'s mut Vec<u8>,
}

impl<'s, S: Sink> Output<'s, S> {
    /// Text for the sink, which waits in this buffer.
    pub(crate) fn new(sink: &'s mut S, pending: &'s mut Vec<u8>) -> Output<'s, S>
        ensures sink { result.sink.now ≡ sink.old }
        ensures pending { result.pending.now ≡ pending.old }
        ensures same_sink { result.sink.ghost_name ≡ sink.entry.ghost_name }
        ensures same_pending { result.pending.ghost_name ≡ pending.entry.ghost_name }
    {
        Output { sink, pending }
    }

    /// Adds a text and the byte that ends it.
    #[inline]
    pub(crate) fn ended(&mut self, bytes: &[u8], end: u8) -> Result<(), ToolFault>
        ensures same { IsSame self.old self.new }
        ensures text { PutsText S.state self.old self.new (bytes.now ++ end ∷ []) result }
    {
        self.append(bytes)?;
        self.pending.push(end)?;
        self.write_block()
    }

    /// Adds texts, each with the byte that ends it.
    pub(crate) fn texts(&mut self, texts: &[&[u8]], end: u8) -> Result<(), ToolFault>
        ensures same { IsSame self.old self.new }
        ensures text { PutsText S.state self.old self.new
            (flat_map (λ text. text ++ end ∷ []) (map (λ text. text.now) texts.now)) result }
    {
        'texts: for text in texts {
            self.ended(text, end)?;
        }
        Ok(())
    }

    // Adds a text to the pending text.
    #[inline]
    fn append(&mut self, bytes: &[u8]) -> Result<(), AllocError>
        ensures same { IsSame self.old self.new }
        ensures sink { self.new.sink.now ≡ self.old.sink.now }
        ensures text { OnOk result
            (self.new.pending.now.items ≡ self.old.pending.now.items ++ bytes.now) }
    {
        self.pending.extend_from_slice(bytes)
    }

    /// Writes the pending text if it fills a block; else keeps it for later.
    #[inline]
    pub(crate) fn write_block(&mut self) -> Result<(), ToolFault>
        ensures same { IsSame self.old self.new }
        ensures text { PutsText S.state self.old self.new [] result }
    {
        if self.pending.len() >= BLOCK {
            return self.flush();
        }
        Ok(())
    }

    /// Writes the pending text.
    pub(crate) fn flush(&mut self) -> Result<(), ToolFault>
        ensures same { IsSame self.old self.new }
        ensures writes { WritesText (S.state self.old.sink.now) (S.state self.new.sink.now)
            self.old.pending.now.items result }
        ensures text { OnOk result (self.new.pending.now.items ≡ []) }
    {
        write_whole(self.sink, self.pending)?;
        self.pending.clear();
        Ok(())
    }
}
