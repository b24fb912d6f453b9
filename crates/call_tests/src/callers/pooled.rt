//! A pool.
ghost use Rattle.std.specs.Prelude.{◌≡◌, true};
ghost use Rattle.conn_pool.specs.SlotViews.{HasRoomForAll};

use conn_manager::SimpleConnection;
use conn_pool::{
    ManageConnection, NopConnectionCustomizer, PoolCore, PoolError, put_back, try_get,
};
use conn_result::QueryResult;
use std::alloc::Global;

/// Takes a connection out of the pool, writes on it, and gives it back. The answer is that of the write, and whether the pool kept the
/// connection.
pub fn write_once<M: ManageConnection>(
    alloc: Global,
    core: &mut PoolCore<M::Connection>,
    manager: &mut M,
) -> Result<(QueryResult<()>, bool), PoolError>
    requires raises { M.raises_room ≡ true }
    requires room { HasRoomForAll core.old (M.room manager.old) }
{
    let mut pooled = try_get(alloc, core, manager, &NopConnectionCustomizer, false)?;
    let written = pooled.batch_execute("INSERT INTO a VALUES (1)");
    let kept = put_back(core, pooled, manager);
    Ok((written, kept))
}
