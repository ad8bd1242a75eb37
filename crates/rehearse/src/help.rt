// The language of scripts, in short; docs/RULES.md has it in full.

// What `--help` prints.
pub const HELP: &str = "rehearse [SCRIPT ..]   makes the calls of each script, or of standard input
rehearse --picture [SCRIPT]
                       prints them as a picture, which a browser shows
rehearse --help        prints this

Headings, before the first call:
  book chess | book bridge    the book, else chess
  chief TOKEN                 the chief's token, else 1
  post PLACES                 the places of the post, else 1024
  pages                       print every page in full
Calls:
  open HALLS                  open so many halls, 1 to 8
  issue CONSOLE CLASS HALLS PART ..
                              CLASS: single, independent, coordinated or a number
                              HALLS: a number with bit h for hall h
                              PART: at HALL OPERATION, or all OPERATION
  deliver PLACE               deliver the message at a place of the post
  work HALL                   let a hall do a part that waits
  clock HALL TIME             set a hall's clock
  drop PLACE                  lose the message at a place of the post
Anywhere:
  as GRANT TOKEN              who asks for the operations from here on, else 0 1
  # ..                        a comment
Operations:
  appoint ENTRY TOKEN         remove ENTRY             deputy ENTRY
  seat BOARD WHITE BLACK      result BOARD ROUND 1-0   show BOARD
  score DEAL N-S E-W SCORE    line DEAL N-S
  close ROUND                 total PARTY
  op KIND GRANT TOKEN A B SCORE D";
