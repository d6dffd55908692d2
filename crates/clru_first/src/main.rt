//! The program with which the README and the page on using the cache begin.
#![tactic(auto)]

use clru::{CLruCache, NonZeroUsize};
use std::io;

fn main(rt: HostRuntime) -> io::Result<()> {
    let two = NonZeroUsize::MIN.saturating_add(1);
    let mut sizes: CLruCache<String, u64> = CLruCache::new(rt.alloc(), two);
    for (page, size) in [("home", 10), ("news", 20), ("home", 11), ("help", 30)] {
        match sizes.put(page.to_string(rt.alloc())?, size) {
            Ok(put) => println!(rt; "{page}: dropped {:?}", put.dropped)?,
            Err(_) => println!(rt; "{page}: no memory")?,
        }
    }
    let (home, news) = (sizes.get("home").copied(), sizes.get("news").copied());
    println!(rt; "home {home:?}, news {news:?}")
}
