//! Laws about stores over files in memory, whatever the code does. Each function does nothing: its clause is the law.
ghost use Rattle.std.specs.Prelude.{◌≡◌};
ghost use Rattle.sqlite.specs.Held.{Held, state};
ghost use Rattle.sqlite.specs.State.{HasCleanDisk};
ghost use Rattle.agv_app_files.specs.MemoryStores.{MemoryStore, over_memory_files};

/// Proves that a store over files in memory is always clean: what is read is what was written. So what calls promise
/// about values there holds unconditionally.
pub fn stores_in_memory_are_clean()
    ensures { (held : Held MemoryStore) → HasCleanDisk (state over_memory_files held) }
{}
