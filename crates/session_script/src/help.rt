/// What `--help` prints.
pub const HELP: &str =
    "session_script: carries out a script of calls to an AV1 encoder's planner, and
prints what each call answered and what was coded, in which order.

Usage: session_script run < SCRIPT
       session_script pass1 < SCRIPT
       session_script pass2 < SCRIPT
       session_script gops N < SCRIPT
       session_script gen N

Words:
  run           reads a script from standard input and carries it out
  pass1         the same as a first pass, which wants a bitrate: the report has
                a line pass HEX for each command, and a line summary HEX at the end
  pass2         the same as a second pass: the script has these lines (Two passes,
                below)
  gops N        codes a script's frames in jobs side by side, on N threads, 1 to
                16, and prints the line of each packet (Jobs, below)
  gen N         carries out a script of 2000 frames under a bitrate, whose scenes
                and sizes follow from N, 1 to 10000; reads nothing, and prints the
                numbers of frames, key frames, hidden frames, packets and bytes,
                and the bits in the reservoir at the end
  --help        prints this text
  --version     prints the version

A script has a line for each setting, and then lines for the calls. A line is a
word and its numbers, with one space between two and none before or behind, and
ends with a line feed alone; the last line may lack it. A tab or a carriage
return makes a line wrong. Empty lines, and lines that begin with #, are skipped.
A number has 1 to 20 decimal digits and is at most 2^64 - 1, that of preset, level
or minq 255, and that of reservoir 2^31 - 1. It has no sign, but that of bitrate,
-2^31 to 2^31 - 1, and the V of scale, -2^63 to 2^63 - 1, may have a leading -.

Settings, before the first call, in any order, each at most once but those
marked *:
  preset N            speed preset, from 0, the slowest, to 10, above as 10 (6);
                      what rdo and multiref say goes before it
  rdo N               frames of lookahead, 1 to 2^64 - 2 (the preset's)
  multiref B          with lowlatency, 1: several references a frame, 0: one
                      (the preset's)
  size W H            frames of W by H samples, each 16 to 65535, with still
                      1 to 65535 (640 480)
  aspect N D          width over height of a sample, N and D above 0 (1 1)
  timebase N D        seconds from a frame to the next, N and D each 1 to
                      2^32 - 1 (1 30)
  depth N             bits of a sample: 8, as the program's samples have (8)
  chroma C            sampling of chroma: 420, 422, 444 or 400 (420)
  keyint MIN MAX      least and greatest distance of two key frames (12 240);
                      MAX is at most 715827882, and 0 stands for that;
                      MIN changes nothing
  switch N            every Nth frame behind a key frame is a switch frame,
                      with lowlatency alone (0, none)
  lowlatency          codes frames in the order in which they come
  still               codes a single frame
  timing              timing information in the stream, not with still
  level N             level to be kept to: 31, none, since the program has no
                      table of levels (none)
  quantizer N         base quantizer index, 0 to 255 (100)
  minq N              least quantizer index, 0 to 255 (0)
  bitrate N           bits a second to be kept to, with no index above that of
                      quantizer but for 255; 0 or less: none is kept to (0)
  reservoir N         frames that the bit reservoir evens out, 12 to 131072
                      (follows from keyint)
  summary HEX         a first pass's summary, 2 to 400 digits 0-9a-f, two for a
                      byte; makes a second pass (none)
  cut P *             a scene begins with frame P, which is a key frame (none)
  bytes P N *         frame P has N bytes, 1 to 4096; the last line for P counts
                      (100 for a key frame, 20 for any other)
  scale P V *         frame P has the mean scale V, in 2^-57; the last line for P
                      counts (0)
  fault K *           the coder fails its call K, from 0, tries and shows counted
                      (none)
  print q             prints a coded frame's quantizer index behind its line (off)
  print reservoir     prints the reservoir's bits behind a receive that coded,
                      where there is a bitrate (off)
  print bytes         prints each packet's bytes behind its line (off)

Calls, at most 100000 in all, with an N of at least 1:
  send, send N        sends one frame, or N
  sendkey             sends one frame as a key frame
  sendopaque V        sends one frame with the value V, which comes back with its
                      packet; no report prints it
  sendsize W H        sends one frame of W by H samples, each 1 to 64, which is
                      refused where the frames have another size
  flush               says that no further frame comes
  receive, receive N  asks for one packet, or N
  pass HEX            in pass2 alone: gives what a first pass said of a command

Report, for each call the lines of what it coded and then that of its answer:
  trial F             frame F was tried: with a bitrate, the first key frame and the
                      first frame of each level of the pyramid are
  code F KIND refs R refresh N shown
                      frame F was coded; KIND is key, inter or switch; R are the
                      slots, of eight, that it refers to, or - for none; N is the
                      sum of 2^S over the slots S that it goes to; hidden stands
                      in the place of shown where it is to be shown later
  q N                 its quantizer index, with print q
  show S              the frame in slot S is shown; no frame is coded
  sent P              frame P was accepted, the first being 0
  send enough-data    no frame is accepted behind a flush, behind the first frame
                      of a still picture, or behind 2147483646 frames
  send frame-size-mismatch
                      the frame hasn't the size that the settings say
  flushed             no further frame will come
  Frame P - TYPE - N bytes
                      the packet of frame P; TYPE is Key frame, Inter frame or
                      Switching frame
  encoded             a hidden frame was coded, so there is no packet yet
  need-more-data      nothing was coded: more frames, or a flush, have to come
  not-ready           nothing was coded: in a second pass a pass line is missing
  limit-reached       flushed, and every frame's packet was given
  bytes HEX           the packet's bytes, with print bytes
  reservoir N         the bits in the reservoir, with print reservoir
  pass HEX            in pass1: what the pass says of the command before it
  summary HEX         in pass1: what it says of all, once, at the end
  given               in pass2: the pass line was taken

Receives. Each codes one command at most. With n frames and a flush n + n/2
receives give all packets, with lowlatency n; more are limit-reached. Before the
flush a receive is need-more-data until it is known of more than rdo frames still
to be coded how they are. So the first packet is to be had behind 7 sends and as
many as rdo, rounded up to a multiple of 4; with lowlatency behind 4 sends and as
many as rdo. Without lowlatency a second key frame by then changes that by a few.

Two passes:
  1. Run a script with a bitrate by pass1, with n + n/2 + 1 receives for n frames:
     the summary comes with the first limit-reached.
  2. Put the summary line among the script's settings, and the pass lines, in
     their order, among its calls, and run it by pass2.
     Without reservoir: one pass line before each receive that codes.
     With reservoir N: before each receive the lines of the commands to come, up
     to the Nth that shows a frame, or all that are left. The seventh and eighth
     digit of such a command's line are 80, those of a hidden frame's 00.
     Where too few were given a receive is not-ready, and changes nothing; one
     line too many is refused: pass data 4.
  A pass line has 16 digits. Other even numbers of digits, 2 to 136, are refused in
  the run: pass data 5; any other text is a wrong line.
  With a summary line pass1 is both passes at once. It takes no pass lines, so it
  codes nothing: where a receive would code, it is not-ready.

Jobs. A job begins with frame 0, and with each cut. It begins with a key frame, and
has a coder of its own: fault K is call K of each job's coder. The P of cut,
bytes and scale, and the numbers of packets, are those of all frames. The calls of
the script are send and send N, and one flush at the end. Any other call is a
wrong line, as is anything but an empty line or a # line behind the flush, and
still. Where the flush is missing the wrong line is the one behind the last.
The print lines change nothing.

Status:
  0   done: the report is printed
  2   the words after the program's name aren't one of those above
  3   script line K: line K, the first being 1, is wrong, or can't stand there,
      or is missing: the flush of gops
  4   invalid config N: a setting is out of its range, 1 the width, 2 the
      height, 3 and 4 the aspect, 5 and 6 the size as it is to be shown, 7 the
      lookahead, 8 the greatest distance of key frames, 11 and 12 the time
      base, 13 the reservoir, 19 the level, 21 the quantizer, 22 the depth; or
      14 there are switch frames without lowlatency, 15 timing with still, 16
      two passes without a bitrate, or 17 a summary in run or gops, which have one
      pass, or none in pass2
  5   standard input can't be read
  6   standard output can't be written
  7   the script has more than 1048576 bytes
  8   coder fault K: the coder failed, as fault says, behind K commands; of gops
      coder fault J K: that of job J, the first being 0
  9   memory ran out
  10  pass data N: 1 the summary's bytes are no summary; or a pass line is
      refused, 2 as it names no kind of frame, 3 as too many frames are ahead,
      4 as none is wanted, 5 as it has other than 8 bytes

Example:
  printf 'size 64 80\\nsend 4\\nflush\\nreceive 6\\n' | session_script run
";

/// What `--version` prints.
pub const VERSION: &str = "session_script 0.1.0\n";
