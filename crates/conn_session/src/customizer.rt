//! What a script has done with each new connection of its pool.
use conn_drivers::R2D2Connection;
use conn_pool::{BeginCustomizer, CustomizeConnection, NopConnectionCustomizer, TestCustomizer};
use conn_result::QueryResult;
use conn_script::Customizer;

/// The customizer that a script names.
#[derive(Clone, Copy, Debug)]
pub struct ScriptCustomizer(pub Customizer);

impl<C: R2D2Connection> CustomizeConnection<C> for ScriptCustomizer {
    ghost use Rattle.std.specs.Prelude.{true};
    ghost use Rattle.conn_session.specs.Customizing.{AcquiresAs};

    ghost acquires = { λ z. AcquiresAs C.is_honest z.0 };

    ghost may_refuse = { true };

    fn on_acquire(&self, connection: &mut C) -> QueryResult<()> {
        match self.0 {
            Customizer::Nop => NopConnectionCustomizer.on_acquire(connection),
            Customizer::Test => TestCustomizer.on_acquire(connection),
            Customizer::Begin => BeginCustomizer.on_acquire(connection),
        }
    }
}
