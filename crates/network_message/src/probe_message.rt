// A datagram that is a probe: its envelope, and what it asks for.
ghost use Rattle.std.specs.Prelude.{◌≡◌};
ghost use Rattle.network_message.specs.ProbeMessage.{probe_from, probe_message_at, answer_probe_message};

use crate::envelope::read;
use network_header::envelope::{Envelope, Places};
use network_header::header::probe_on;
use probe::body::{Probe, read_body};
use wire::refusal::{Reason, Refusal};

// The probe of an accepted datagram; another one is 4.
fn probe_from(
    s: &[u8],
    envelope: Envelope,
    places: Places,
) -> Result<(Envelope, Places, Probe), Refusal>
    ensures { answer_probe_message result ≡ probe_from envelope places s.now }
{
    if !probe_on(envelope.payload_header) {
        return Err(Reason::NotTaken.at(0));
    }
    let (probe, _) = read_body(s, places.payload)?;
    Ok((envelope, places, probe))
}

// A probe's datagram under the sizes of the configured writers: its envelope, where the variable parts end and the probe starts, and the
// probe. The datagram's own refusals come first, its body's too, then 4 at 0 for another one. It goes through `read`, so that the header's
// reader keeps one caller and is put in line there; a probe's short body is read twice.
pub fn read_probe(s: &[u8], sizes: &[u16]) -> Result<(Envelope, Places, Probe), Refusal>
    ensures { answer_probe_message result ≡ probe_message_at sizes.now s.now }
{
    let (envelope, places, _) = read(s, sizes)?;
    probe_from(s, envelope, places)
}
