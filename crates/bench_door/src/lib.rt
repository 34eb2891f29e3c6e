// The decisions that every call pays for, exported for bench/. Nothing is asked of their callers.
#![tactic(auto)]

ghost use Rattle.std.specs.Prelude.{◌≡◌, cond};
ghost use Rattle.segments.specs.Free.{free_count, lowest_free};
ghost use Rattle.tables.specs.Sound.{soundb};
ghost use Rattle.cells.specs.Says.{house_of};

// 1 where the cells are sound tables beside a store of so many cells, else 0.
#[unsafe(no_mangle)]
pub extern "C" fn dorrivand_measure_sound(tables: &[u32], cells: usize) -> u32
    ensures { result ≡ cond (soundb cells tables.now) 1 0 }
{
    if sound::sound(tables, cells) {
        return 1;
    }
    0
}

// The number of free segments, and the lowest free one; 0 where the tables are not sound.
#[unsafe(no_mangle)]
pub extern "C" fn dorrivand_measure_free_count(tables: &[u32], cells: usize) -> u32
    ensures { result ≡ cond (soundb cells tables.now) (free_count (house_of tables.now)) 0 }
{
    if !sound::sound(tables, cells) {
        return 0;
    }
    free_count::free_count(tables)
}

#[unsafe(no_mangle)]
pub extern "C" fn dorrivand_measure_lowest_free(tables: &[u32], cells: usize) -> u32
    ensures { result ≡ cond (soundb cells tables.now) (lowest_free (house_of tables.now)) 0 }
{
    if sound::sound(tables, cells) {
        return free_lowest::lowest_free(tables).number();
    }
    0
}
