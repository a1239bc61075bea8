// Load buffers cover store buffers, in any program whose transitions are drawn.
ghost use Rattle.files.specs.Program.{Program};
ghost use Rattle.machines.specs.Predecessors.{AllDrawn};
ghost use Rattle.machines.specs.Matched.{StoreTraced, StoreMatched, StoreSafe, LoadSafe};

pub fn load_buffers_cover_stores() -> u8
    ensures traced { (s : Program) → AllDrawn s → StoreTraced s }
    ensures matched { (s : Program) → AllDrawn s → StoreMatched s }
    ensures safe { (s : Program) → AllDrawn s → LoadSafe s → StoreSafe s }
{
    0
}
