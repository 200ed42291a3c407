// What is salvaged of a partial that never completes.
ghost use Rattle.uadp_c.specs.Salvaging.{salvage_lent, Salvages};

// Puts the holes of a partial and its leading fields that are whole into a list, and what is to be told of them into a record. The partial
// stays as it is.
#[unsafe(no_mangle)]
pub extern "C" fn uadp_salvage(
    rec: &[u8],
    payload: &[u8],
    marks: &[u8],
    config: &[u8],
    told: &mut [u8],
    list: &mut [u8],
) -> u64
    ensures { let saved = salvage_lent rec.now payload.now marks.now config.now in
        Salvages (saved told.old list.old) result told.new list.new }
{
    uadp_c::salvaging::uadp_salvage(rec, payload, marks, config, told, list)
}
