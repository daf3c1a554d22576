use anyhow::Result;
use fasm_text::LineWriter;
use shelf_kit::MemSink;
use std::alloc::Global;
use std::str;

/// What three lines come to, where the sink's call of this number fails: of each how many bytes were
/// sent, or that it failed, and what the sink has then.
pub(crate) fn lines_over(alloc: Global, call: u64) -> Result<String> {
    let mut sink = MemSink::with_room(alloc, vec![in alloc; call]?, 100)?;
    let mut writer = LineWriter::with_room(alloc, 4)?;
    writer.add(b"a");
    writer.add(b"b");
    let first = told(writer.send(&mut sink).ok());
    writer.add(b"c");
    let second = told(writer.send(&mut sink).ok());
    let third = told(writer.send(&mut sink).ok());
    let text = str::from_utf8(sink.bytes.as_slice())?;
    Ok(format!(in alloc; "{first} {second} {third}, {text:?}")?)
}

/// How many bytes a line has, and 0 for one that failed.
fn told(sent: Option<u64>) -> u64 {
    sent.unwrap_or(0)
}
