//! The command `INFO`: figures of the store, a line for each.

ghost use Rattle.std.specs.Prelude.{◌≡◌, ◌++◌, IfOk, OnOk};
ghost use Rattle.std.specs.List.{flat_map};
ghost use Rattle.lsm_serve.specs.Figures.{IsInfo, figure_line, level_figure_line, level_lines};

use crate::Answer;
use bytes::Bytes;
use lsm_key::{ALL_LEVELS, Seq};
use lsm_resp::RespReply;
use lsm_store::Store;
use lsm_vault::Vault;
use std::alloc::{AllocError, Global};
use std::io::Write;

/// A line for each figure, as `INFO` of Redis has them, of a store that was last synced up to a sequence.
pub(crate) fn info<V: Vault>(
    alloc: Global,
    store: &Store<V>,
    synced: Seq,
) -> Result<Answer, AllocError>
    ensures { IfOk result (IsInfo store.now synced) }
{
    let mut text = Vec::new(alloc);
    write_text(&mut text, "# Keyspace\r\n")?;
    write_figure(&mut text, "last_sequence", store.latest_sequence().number())?;
    write_figure(&mut text, "synced_sequence", synced.number())?;
    write_figure(
        &mut text,
        "flushed_sequence",
        store.flushed_sequence().number(),
    )?;
    write_levels(&mut text, store, &ALL_LEVELS)?;
    Ok(Answer::Reply(RespReply::Bulk(Some(Bytes::from_vec(text)?))))
}

fn write_text(out: &mut Vec<u8>, text: &str) -> Result<(), AllocError>
    ensures { OnOk result (out.new.items ≡ out.old.items ++ text.now) }
{
    out.extend_from_slice(text.as_bytes())
}

fn write_figure(out: &mut Vec<u8>, name: &str, figure: u64) -> Result<(), AllocError>
    ensures { OnOk result (out.new.items ≡ out.old.items ++ figure_line name.now figure) }
{
    write!(out, "{name}:{figure}\r\n").map_err(|_| AllocError)
}

fn write_levels<V: Vault>(
    out: &mut Vec<u8>,
    store: &Store<V>,
    levels: &[u8],
) -> Result<(), AllocError>
    ensures { OnOk result (out.new.items ≡ out.old.items ++ flat_map (level_lines store.now.served.version.files) levels.now) }
{
    for level in levels {
        write_level(out, store, *level)?;
    }
    Ok(())
}

/// `levelN_files`, `levelN_bytes` and `levelN_entries`
#[tactic(auto, unfolding(crate::specs::Figures::level_lines))]
fn write_level<V: Vault>(out: &mut Vec<u8>, store: &Store<V>, level: u8) -> Result<(), AllocError>
    ensures { OnOk result (out.new.items ≡ out.old.items ++ level_lines store.now.served.version.files level) }
{
    let stats = store.level_stats(level);
    write_level_figure(out, level, "files", stats.files as u64)?;
    write_level_figure(out, level, "bytes", stats.bytes)?;
    write_level_figure(out, level, "entries", stats.entries)
}

fn write_level_figure(
    out: &mut Vec<u8>,
    level: u8,
    name: &str,
    figure: u64,
) -> Result<(), AllocError>
    ensures { OnOk result (out.new.items ≡ out.old.items ++ level_figure_line level name.now figure) }
{
    write!(out, "level{level}_{name}:{figure}\r\n").map_err(|_| AllocError)
}
