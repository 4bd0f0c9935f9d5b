// A span: its offset and its length.
ghost use Rattle.std.specs.Prelude.{◌≡◌, ◌+◌, ◌≤◌, length};
ghost use Rattle.std.proofs.lemmas.List.Edits.{sets};
ghost use Rattle.byte_copy.specs.Put.{put_at, put_end};
ghost use Rattle.body_format.specs.Histograms.{span_bytes};
ghost use Rattle.body_builder_histogram.specs.Lent.{span_of};

// The bytes of a span.
pub fn span_size(offset: i32, size: u32) -> usize
    ensures { (result ≡ length (span_bytes (span_of offset size))) × (result ≤ 20) }
{
    let first = varint::varint_len(i64::from(offset));
    let second = uvarint::uvarint_len(u64::from(size));
    first + second
}

// A span at a place that has room for it; the place after it.
pub(crate) fn put_span(buffer: &mut [u8], at: usize, offset: i32, size: u32) -> usize
    requires { at + length (span_bytes (span_of offset size)) ≤ length buffer.old }
    ensures value { result ≡ at + length (span_bytes (span_of offset size)) }
    ensures buffer_after { buffer.new ≡ sets buffer.old at (span_bytes (span_of offset size)) }
{
    let second = varint::put_varint(buffer, at, i64::from(offset));
    uvarint::put_uvarint(buffer, second, u64::from(size))
}

// A span at a place of the buffer; the place after it. Where it does not fit, nothing changes.
pub fn put_span_at(buffer: &mut [u8], at: usize, offset: i32, size: u32) -> usize
    ensures value { result ≡ put_end buffer.old at (span_bytes (span_of offset size)) }
    ensures buffer_after { buffer.new ≡ put_at buffer.old at (span_bytes (span_of offset size)) }
{
    let bytes = span_size(offset, size);
    if buffer.len() < at || buffer.len() - at < bytes {
        return at;
    }
    put_span(buffer, at, offset, size)
}
