//! Numbers of tasks, ports and pipes.
ghost use Rattle.std.specs.Prelude.{◌≡◌, IfOk, IfErr};
ghost use Rattle.osm_graph.specs.declared.fault.GraphError.TheVariants.{Memory};

use crate::fault::GraphError;

/// A number of 32 bits. What is past the last one could not be held.
pub(crate) fn number_of(at: usize) -> Result<u32, GraphError>
    ensures ok { IfOk result (λ number. number ≡ at) }
    ensures err { IfErr result (λ e. e ≡ Memory) }
{
    match u32::try_from(at) {
        Ok(number) => Ok(number),
        Err(_) => Err(GraphError::Memory),
    }
}
