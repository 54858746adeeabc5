//! What an encoder counts, and the metadata blocks of a frame.

use av1_settings::laws::sums_of_stats;
use av1_settings::{EncoderStats, T35, T35List};
use coding_base::Bytes;
use std::alloc::Global;
use std::test::Fail;

/// Each count that isn't 0, by its list and place.
fn told(alloc: Global, stats: &EncoderStats) -> Result<String, Fail> {
    let mut text = String::new(alloc);
    write_counts(&mut text, "block", &stats.block_size_counts)?;
    write_counts(&mut text, "skip", &[stats.skip_block_count])?;
    write_counts(&mut text, "transform", &stats.tx_type_counts)?;
    write_counts(&mut text, "luma", &stats.luma_pred_mode_counts)?;
    write_counts(&mut text, "chroma", &stats.chroma_pred_mode_counts)?;
    Ok(text)
}

fn write_counts(text: &mut String, name: &str, counts: &[usize]) -> Result<(), Fail> {
    for (place, count) in counts.iter().enumerate() {
        if *count > 0 {
            write!(text, "{name} {place}: {count}, ")?;
        }
    }
    Ok(())
}

#[test]
fn sums_stop_at_the_greatest_count(rt: HostRuntime) -> Result<(), Fail> {
    let mut stats = EncoderStats::default();
    stats.skip_block_count = usize::MAX - 1;
    stats.block_size_counts[3] = 5;
    let mut more = EncoderStats::default();
    more.skip_block_count = 7;
    more.block_size_counts[3] = 2;
    more.chroma_pred_mode_counts[33] = 1;
    let sum = stats + &more;
    stats += &more;
    let copy = more.clone()?;
    let summed = "block 3: 7, skip 0: 18446744073709551615, chroma 33: 1, ";
    let added = "block 3: 2, skip 0: 7, chroma 33: 1, ";
    for (stats, text) in [
        (&sum, summed),
        (&stats, summed),
        (&more, added),
        (&copy, added),
    ] {
        assert_eq!(rt; told(rt.alloc(), stats)?.as_str(), text);
    }
    assert_eq!(rt;
        [sum == stats, sum == more, copy == more, sum != more],
        [true, false, true, true]
    );
    sums_of_stats(sum);
    Ok(())
}

#[test]
fn metadata_is_a_list_of_blocks(rt: HostRuntime) -> Result<(), Fail> {
    let mut blocks = T35List::new(rt.alloc());
    blocks.push(T35 {
        country_code: 255,
        country_code_extension_byte: 0,
        payload: Bytes::from_slice(rt.alloc(), b"AYAYA")?,
    })?;
    assert_eq!(rt; blocks.len(), 1);
    for block in blocks.as_slice() {
        assert_eq!(rt;
            [block.country_code, block.country_code_extension_byte],
            [255, 0]
        );
        assert_eq!(rt; block.payload.as_slice(), b"AYAYA".as_slice());
    }
    Ok(())
}
