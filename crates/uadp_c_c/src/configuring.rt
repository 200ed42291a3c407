// Reading a configuration.
ghost use Rattle.std.specs.Prelude.{◌≡◌};
ghost use Rattle.config_text.specs.Config.{config_of};
ghost use Rattle.records.specs.Result.{result_in, filled_in};
ghost use Rattle.records.specs.Writers.{config_filling};

// Reads a configuration text into a configuration record.
#[unsafe(no_mangle)]
pub extern "C" fn uadp_config(text: &[u8], config: &mut [u8]) -> u64
    ensures { let read = config_filling (config_of text.now) in
        (result ≡ result_in read config.old) × (config.new ≡ filled_in read config.old) }
{
    uadp_c::configuring::uadp_config(text, config)
}
