//! What holds of the pages of a cache and of their bytes. These functions do nothing: their contracts are what is
//! proved.
ghost use Rattle.split_types.specs.HeldPages.{PagesAreKnown};
ghost use Rattle.split_types.specs.Victims.{VictimsAreOldest};
ghost use Rattle.split_types.specs.PagesInCache.{CountsChange, LoadingPages, PagesChange, PinsChange};
ghost use Rattle.split_types.specs.PagesInCache.{TouchesChange, UnsettledAreHeld};
ghost use Rattle.split_types.specs.PageBytes.{BytesByByte};
ghost use Rattle.split_types.specs.CachedHistories.{CachedHistories};
ghost use Rattle.split_types.specs.DiskContents.{CleanPagesAreOnDisk, WritesStayApart};
ghost use Rattle.split_types.specs.WorkedCaches.{WorkedCaches};
ghost use Rattle.split_types.specs.WorkedFiles.{WorkedFiles};

/// Every page that is held, dirty or busy is among the known pages, and each of these stands there once.
pub fn pages_are_known()
    ensures { PagesAreKnown }
{}

/// The page that is evicted next may be evicted, and was touched before every other page that may be; where there
/// is none, no page may be.
pub fn victims_are_oldest()
    ensures { VictimsAreOldest }
{}

/// What each event of a legal history changes of a page: whether it is held, loading, dirty and busy.
pub fn pages_change()
    ensures { PagesChange }
{}

/// What is dirty or busy was put or loaded, and is held.
pub fn unsettled_are_held()
    ensures { UnsettledAreHeld }
{}

/// What is loading was neither put nor loaded before, and is neither dirty nor busy; it is read once, from its block.
pub fn loading_pages()
    ensures { LoadingPages }
{}

/// What each event of a legal history changes of the process for which a page stays in the cache: each process has one
/// such page at most, and it is held.
pub fn pins_change()
    ensures { PinsChange }
{}

/// What each event of a legal history changes of the place at which a page was touched last; pages that are held, and
/// not loading, were touched at different places.
pub fn touches_change()
    ensures { TouchesChange }
{}

/// What each event of a legal history changes of how many pages are held, and how many dirty or busy.
pub fn counts_change()
    ensures { CountsChange }
{}

/// A page has 4,096 bytes, and at each place the fill of the last put that covers it.
pub fn bytes_by_byte()
    ensures { BytesByByte }
{}

/// Of each page that has a block and whose file is there: where it is neither dirty nor busy its block holds its bytes;
/// where it is busy and not dirty the requests that write it carry them; while it is loading it is neither, so that its
/// read finds its bytes. A block that no page of any file ever had keeps what it held at the start, and each block of
/// data is whole.
pub fn clean_pages_are_on_disk()
    ensures { CleanPagesAreOnDisk }
{}

/// What a request carries stays what it was at its add, and no two that aren't done well write one block.
pub fn writes_stay_apart()
    ensures { WritesStayApart }
{}

/// In the histories that serve as examples, what the requests cost and whom, and after some of their events the pages
/// that are held, loading, pinned, and dirty or busy, and the page that is evicted next.
pub fn worked_caches()
    ensures { WorkedCaches }
{}

/// In the histories that serve as examples, the pieces of calls, the sizes and blocks of files, and the bytes of
/// pages and of the disk.
pub fn worked_files()
    ensures { WorkedFiles }
{}

/// The histories that serve as examples of reads and of small caches are legal, and are what turns and draining make.
pub fn cached_histories()
    ensures { CachedHistories }
{}
