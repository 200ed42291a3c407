// Reading a configuration.
ghost use Rattle.std.specs.Prelude.{◌≡◌};
ghost use Rattle.config_text.specs.Config.{config_of};
ghost use Rattle.records.specs.Result.{result_in, filled_in};
ghost use Rattle.records.specs.Writers.{config_filling};

use crate::refusals::{refused, refused_for};
use config_text::read_config;
use records::result::result;
use records::sizes::CONFIG_SIZE;
use records::writers::put_config;
use wire::refusal::Reason;

// Reads a configuration text into a configuration record.
#[unsafe(no_mangle)]
pub extern "C" fn uadp_config(text: &[u8], config: &mut [u8]) -> u64
    ensures { let read = config_filling (config_of text.now) in
        (result ≡ result_in read config.old) × (config.new ≡ filled_in read config.old) }
{
    match read_config(text) {
        Err(refusal) => refused(refusal),
        Ok(c) => {
            if config.len() < CONFIG_SIZE {
                return refused_for(Reason::NoRoom);
            }
            put_config(config, c);
            result(0, 0)
        }
    }
}
