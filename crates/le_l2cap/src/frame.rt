ghost use Rattle.std.specs.Prelude.{◌≡◌, IfOk};
ghost use Rattle.std.specs.Result.{result_map_both};
ghost use Rattle.le_l2cap.specs.Frame.{BasicFrame, frame_contents, frame_spelled, frame_of, HasLengthAndChannel};

/// A basic information frame (Core 5.0, Vol 3 Part A, 3.1).
#[derive(Clone, Copy, PartialEq, Eq)]
pub struct Frame<'a> {
    /// Channel, one of `channel` or any other.
    pub cid: u16,
    /// Payload of at most 65,535 octets.
    pub payload: &'a [u8],
}

/// Octets that are no frame: the header is incomplete, or the payload does not have the length that
/// it states.
#[derive(Clone, Copy, PartialEq, Eq)]
pub struct Skip;

/// Reads a whole frame, and borrows its payload.
pub fn read_frame(octets: &[u8]) -> Result<Frame<'_>, Skip>
    ensures exact { result_map_both frame_contents (λ skip. skip) result ≡ frame_of octets.now }
    ensures spelled { IfOk result (λ frame. frame_spelled (frame_contents frame) ≡ octets.now) }
    // No well-formed frame is skipped.
    ensures accepted { (frame : BasicFrame) → HasLengthAndChannel frame → frame_spelled frame
        ≡ octets.now
        → frame_of octets.now ≡ Ok frame }
{
    let [length_low, length_high, cid_low, cid_high, payload @ ..] = octets else {
        return Err(Skip);
    };
    if payload.len() != usize::from(u16::from_le_bytes([*length_low, *length_high])) {
        return Err(Skip);
    }
    Ok(Frame {
        cid: u16::from_le_bytes([*cid_low, *cid_high]),
        payload,
    })
}
