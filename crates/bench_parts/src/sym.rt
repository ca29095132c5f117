//! Makes a large symbol file in memory, reads it so many times, and prints counts alone. Its three
//! words are the number of objects, at most 4,096, the number of uses, and how many times the file
//! is read; with no words they are 64, 100 and 2. A clock from outside tells how long it takes.

mod making;

use making::symbol_file;
use ob_sym::read_sym;

// Makes the file, and reads it so many times.
fn print_reads(rt: &HostRuntime, objects: u32, uses: u32, reads: u32) -> anyhow::Result<()> {
    let file = symbol_file(rt.alloc(), objects, uses)?;
    println!(rt; "{} bytes", file.len())?;
    for _ in 0..reads {
        let face = read_sym(rt.alloc(), &file)?;
        println!(rt; "{} objects, {} uses", face.objects.len(), face.uses.len())?;
    }
    Ok(())
}

/// Does what the words say, and prints counts.
pub fn print(rt: &HostRuntime, words: &[String]) -> anyhow::Result<()> {
    match words {
        [] => print_reads(rt, 64, 100, 2),
        [objects, uses, reads] => {
            print_reads(rt, objects.parse()?, uses.parse()?, reads.parse()?)
        }
        _ => anyhow::bail!("three numbers are wanted: objects, uses and reads"),
    }
}
